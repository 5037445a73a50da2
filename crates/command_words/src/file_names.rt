use std::marker::Model;

/// Names of files, as the arguments have them, in their order. In a `Request` they are at most
/// `MAX_FILES`, and at least one where a command wants one.
#[derive(Debug, Drop)]
pub struct FileNames<'a> {
    held: Vec<&'a str>,
}

impl<'a> Model for FileNames<'a> {
    ghost use Rattle.std.specs.Prelude.{ℕ, List, map};

    ghost Value = { List (List ℕ) };

    ghost view = { λ names. map (λ name. name.now) names.held.items };
}

impl<'a> FileNames<'a> {
    ghost use Rattle.std.specs.Prelude.{◌≡◌, map};

    /// These names.
    pub(crate) fn from_vec(held: Vec<&'a str>) -> Self
        ensures { result ≡ map (λ name. name.now) held.entry.items }
    {
        FileNames { held }
    }

    /// The names in their order. In a `Request` they are at most `MAX_FILES`.
    pub fn as_slice(&self) -> &[&'a str]
        ensures { map (λ name. name.now) result.now ≡ self.now }
    {
        self.held.as_slice()
    }
}
