/// How the value of a field is written.
#[derive(Clone, Copy)]
pub enum Form {
    /// A number of one to ten digits.
    Number,
    /// A distance in units, or in cells and units.
    Distance,
}

/// A field that holds a number.
#[derive(Clone, Copy)]
pub struct Field {
    /// How it is written.
    pub form: Form,
    /// The least value that it may have.
    pub least: u32,
    /// The greatest value that it may have.
    pub greatest: u32,
    /// The value of a trait without the field.
    pub default: u32,
}
