use crate::skipped::Skipped;
use base::List;
use yaml_lines::Text;

/// Names in the order in which they were written. A name may stand in it more than once.
pub type NameList = List<Text>;

/// Kinds by their numbers, each from 0.
pub type KindNumbers = List<u16>;

/// The nodes that were passed over, in preorder.
pub type SkippedList = List<Skipped>;

/// For one builder a bit for each product. A row may be shorter: what is missing is false.
pub type BuildRow = List<bool>;

/// A row for each builder.
pub type BuildRows = List<BuildRow>;
