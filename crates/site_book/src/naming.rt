use std::marker::Brand;

/// Names the tables of one desk: which table each site has.
///
/// One function opens, uses and closes a desk. It is generic in the naming and is called with [`Brand`],
/// after the tables were made; the call picks `names_of` of the tables (`specs/Tables.antt`). So a
/// `Told` reaches no viewer of another desk, and equal site numbers mean the same table.
pub trait Naming {
    ghost use Rattle.std.specs.Prelude.{ℕ};
    ghost use Rattle.atomic_table.specs.Seated.{TableId};

    ghost table: { ℕ → TableId };
}

impl Naming for Brand {
    ghost use Rattle.site_book.specs.Tables.{no_table};

    ghost table = { λ _. no_table };
}
