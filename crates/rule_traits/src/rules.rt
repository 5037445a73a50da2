ghost use Rattle.std.specs.Prelude.{◌≡◌, ◌<◌, length, IfOk, IfSome};
ghost use Rattle.std.specs.Option.{option_copied};
ghost use Rattle.rule_traits.specs.Rules.{builds, kind_at, number_named};
ghost use Rattle.rule_traits.specs.ValidRules.{AreValidRules};

use crate::build_table::build_rows;
use crate::kind::Kind;
use crate::lists::BuildRows;
use base::NoMemory;
use std::alloc::Global;
use std::marker::Model;

/// The kinds of typed rules. A kind's number is its index, so it is below `MAX_KINDS`.
///
/// Rules are always valid: each number of a field is in its range, and each kind that a kind needs
/// is there.
pub struct Rules {
    kinds: Vec<Kind>,
    rows: BuildRows,
}

// By hand, so that what drops one needs no proof of how its parts are dropped.
impl Drop for Rules {
    fn drop(self) {
        let Self { kinds: _, rows: _ } = self;
    }
}

impl Model for Rules {
    ghost use Rattle.std.specs.Prelude.{List};
    ghost use Rattle.rule_traits.specs.BuildTable.{IsTableOf};
    ghost use Rattle.rule_traits.specs.declared.kind.Kind.{Kind};
    ghost use Rattle.rule_traits.specs.ValidRules.{AreValidRules};

    ghost Value = { List Kind };

    ghost view = { λ rules. rules.kinds.items };

    ghost invariant = { λ rules. AreValidRules rules.kinds.items × IsTableOf rules.kinds.items
        rules.rows };
}

impl Rules {
    /// The rules of these kinds, which are valid. Which of them build which is decided here, once
    /// for all pairs.
    pub fn of(alloc: Global, kinds: Vec<Kind>) -> Result<Rules, NoMemory>
        requires { AreValidRules kinds.items }
        ensures { IfOk result (λ rules. rules ≡ kinds.items) }
    {
        let rows = build_rows(alloc, kinds.as_slice())?;
        Ok(Rules { kinds, rows })
    }

    /// The kinds by their numbers.
    pub fn into_vec(self) -> Vec<Kind>
        ensures value { result.items ≡ self }
        ensures valid { AreValidRules self }
    {
        let Self { kinds, rows: _ } = self;
        kinds
    }

    /// The kinds by their numbers.
    pub fn kinds(&self) -> &[Kind]
        ensures value { result.now ≡ self.now }
        ensures valid { AreValidRules self.now }
    {
        self.kinds.as_slice()
    }

    /// The kind of this number. `None` comes exactly where there is none.
    pub fn get(&self, kind: u16) -> Option<&Kind>
        ensures { option_copied result ≡ kind_at self.now kind }
    {
        self.kinds.get(usize::from(kind))
    }

    /// The least number of a kind of this name. `None` comes exactly where no kind has it.
    pub fn number(&self, name: &str) -> Option<u16>
        ensures value { result ≡ number_named self.now name.now }
        ensures is_a_kind { IfSome result (λ number. number < length self.now) }
    {
        for (number, kind) in self.kinds.iter().enumerate() {
            if kind.name.as_str() == name {
                return Some(number as u16);
            }
        }
        None
    }

    /// Whether a kind of the first number builds kinds of the second: a name of the product's
    /// queues is one that the builder produces. False where a number is no kind's.
    pub fn builds(&self, builder: u16, product: u16) -> bool
        ensures { result ≡ builds self.now builder product }
    {
        let Some(row) = self.rows.as_slice().get(usize::from(builder)) else {
            return false;
        };
        match row.as_slice().get(usize::from(product)) {
            Some(bit) => *bit,
            None => false,
        }
    }
}
