ghost use Rattle.std.specs.Prelude.{◌≡◌, ◌<◌, ℕ, List, length};
ghost use Rattle.frame_core.specs.Column.{Column, column_of};
ghost use Rattle.frame_table.specs.declared.pass.Pass.{Pass};
ghost use Rattle.frame_table.specs.declared.table.FrameTable.{FrameTable};
ghost use Rattle.frame_table.specs.Steps.{IsFound};
ghost use Rattle.frame_table.specs.Calls.{plan_of, standing};
ghost use Rattle.match_run.specs.Local.{IsFilled};

/// A law of local matches: where the table of a run is closed with its pass, the columns that come
/// back are those with which the run filled it.
pub fn closed_columns_are_those()
    ensures { (filled : List Column) (table : FrameTable) (pass : Pass) (columns : List Column) →
        IsFilled filled table pass → length columns ≡ length (plan_of table) →
        ((c : ℕ) → c < length (plan_of table) →
        IsFound (standing pass c) (column_of columns c)) → columns ≡ filled }
{}
