#![tactic(auto)]
// The page: every call that document 01 names, why a face is shown or hidden (document 02), and the calls that load a pair and then play it. Each stands in a crate of its own, where its whole
// contract is proved; docs/CALLS.md has them all side by side. Demands 1 to 3 are stated in specs/Demands.antt, document 02's requests in
// specs/Requests.antt, the cases that document 01 marks in specs/Marked.antt.

// ---- reading a text

pub use bac6::{FigureAnswer, read as read_figure};
pub use tra4::{MovementAnswer, read as read_movement};

// ---- loading a pair

pub use pair_load::{PairAnswer, load};
pub use pair_movement::load_movement;

// ---- playing, on any tables and counts

pub use player_channel::Sample;
pub use player_corners::{FaceCorner, Uv, corner};
pub use player_label::{label, label_number};
pub use player_samples::sample;
pub use player_shown::shown;
pub use player_why::{Reason, why};
pub use table_counts::{FigureCounts, MovementCounts};

// ---- loading a pair and then playing it: the answers speak of the two texts alone

pub use pair_corners::played_corner;
pub use pair_labels::{Refusal, played_label, played_label_number};
pub use pair_played::Played;
pub use pair_samples::played_sample;
pub use pair_shown::played_shown;
pub use pair_why::played_why;
