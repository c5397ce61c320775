// How many rows each list of a table has.
ghost use Rattle.std.specs.Prelude.{◌≡◌};
ghost use Rattle.table_counts.specs.Counts.{figure_lists, movement_lists, no_figure, no_movement};

// How many rows each list of a movement has.
#[derive(Clone, Copy)]
pub struct MovementCounts {
    pub bones: usize,
    pub keys: usize,
    pub patterns: usize,
}

// How many rows each list of a figure has; owners are as many as points.
#[derive(Clone, Copy)]
pub struct FigureCounts {
    pub textures: usize,
    pub colours: usize,
    pub materials: usize,
    pub points: usize,
    pub normals: usize,
    pub bones: usize,
    pub uvs: usize,
    pub faces: usize,
    pub groups: usize,
}

impl FigureCounts {
    // In the table's order, without the owners.
    #[tactic(auto, unfolding(crate::specs::Counts::figure_lists))]
    pub fn rows(self) -> [usize; 9]
        ensures { result ≡ figure_lists self }
    {
        [
            self.textures,
            self.colours,
            self.materials,
            self.points,
            self.normals,
            self.bones,
            self.uvs,
            self.faces,
            self.groups,
        ]
    }
}

impl MovementCounts {
    // In the table's order.
    #[tactic(auto, unfolding(crate::specs::Counts::movement_lists))]
    pub fn rows(self) -> [usize; 3]
        ensures { result ≡ movement_lists self }
    {
        [self.bones, self.keys, self.patterns]
    }
}

// No rows: what an answer holds where a text is refused.
#[tactic(auto, unfolding(crate::specs::Counts::no_figure))]
pub fn no_figure() -> FigureCounts
    ensures { result ≡ no_figure }
{
    FigureCounts {
        textures: 0,
        colours: 0,
        materials: 0,
        points: 0,
        normals: 0,
        bones: 0,
        uvs: 0,
        faces: 0,
        groups: 0,
    }
}

#[tactic(auto, unfolding(crate::specs::Counts::no_movement))]
pub fn no_movement() -> MovementCounts
    ensures { result ≡ no_movement }
{
    MovementCounts {
        bones: 0,
        keys: 0,
        patterns: 0,
    }
}
