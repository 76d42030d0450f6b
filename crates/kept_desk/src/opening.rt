use std::marker::Brand;

/// Names one journal and its desk's state when it was opened: the journal's table, what its writer had, and the
/// stations' contents and names, by their numbers in the plan.
///
/// One function opens, uses and closes a desk with a journal. It is generic in this trait and is called with [`Brand`],
/// after the table was made; the call picks the members, such as `contents_of` of the cells and `names_of` of the
/// plan's stations (`specs/Opened.antt`). So a station's share reaches no journal but its own.
pub trait Opening {
    ghost use Rattle.std.specs.Prelude.{ℕ, List, Option};
    ghost use Rattle.atomic_table.specs.Seated.{TableId};
    ghost use Rattle.ledger_model.specs.Content.{Content};

    ghost table: { TableId };

    ghost before: { Option (List ℕ) };

    ghost first: { ℕ → Content };

    ghost name: { ℕ → List ℕ };
}

impl Opening for Brand {
    ghost use Rattle.std.specs.Prelude.{[], None};
    ghost use Rattle.kept_desk.specs.Held.{no_table};
    ghost use Rattle.ledger_model.specs.Content.{empty_content};

    ghost table = { no_table };

    ghost before = { None };

    ghost first = { λ _. empty_content };

    ghost name = { λ _. [] };
}
