ghost use Rattle.std.specs.Prelude.{◌≡◌, ◌≤◌, ◌<◌, ◌^◌, ◌++◌, ℕ, List, Ok, length, take};
ghost use Rattle.wire_bytes.specs.Field.{field_bytes, field_number, AreBytes};
ghost use Rattle.wire_bytes.specs.Read.{field_at};

/// A law of fields of every width: a field has as many bytes as it is wide. The call does nothing.
#[tactic(auto, using(crate::proofs::FieldLemmas::field_length))]
pub fn field_has_its_width()
    ensures { (width number : ℕ) → length (field_bytes width number) ≡ width }
{}

/// A law of fields of every width: reading what was written gives it back, and then what follows
/// it. The call does nothing.
#[tactic(auto, using(crate::proofs::ReadLemmas::written_is_read))]
pub fn number_is_read_back()
    ensures { (width number : ℕ) (rest : List ℕ) → number < 256 ^ width →
        field_at width (field_bytes width number ++ rest) ≡ Ok (number, rest) }
{}

/// A law of fields of every width: the bytes of the number that was read are the bytes that were
/// read. The call does nothing.
#[tactic(auto, using(crate::proofs::FieldLemmas::field_bytes_back))]
pub fn read_bytes_are_written()
    ensures { (width : ℕ) (bytes : List ℕ) → AreBytes bytes → width ≤ length bytes →
        field_bytes width (field_number width bytes) ≡ take width bytes }
{}
