ghost use Rattle.std.specs.Prelude.{◌≡◌, ℕ, List as ListValue};
ghost use Rattle.rt_tech.specs.declared.table.Tech.{Tech};
ghost use Rattle.rt_tech.specs.declared.table.Which.{Which};
ghost use Rattle.rt_tech.specs.Tech.{IsValidTech};
ghost use Rattle.rt_tables.specs.Tables.{IsTechOf, HasTableFault};
ghost use Rattle.rt_keys.specs.declared.error.TableError.{TableError};

/// Law: a table that is read is in order.
pub fn a_table_read_is_valid()
    ensures { (which : Which) (bytes : ListValue ℕ) (t : Tech) → IsTechOf which bytes t → IsValidTech t }
{}

/// Law: bytes are one table at most.
pub fn one_table_is_read()
    ensures { (which : Which) (bytes : ListValue ℕ) (t u : Tech) → IsTechOf which bytes t → IsTechOf which bytes u → t ≡ u }
{}

/// Law: bytes that are a table have no fault.
pub fn a_table_has_no_fault()
    ensures { (which : Which) (bytes : ListValue ℕ) (t : Tech) (error : TableError) → IsTechOf which bytes t → HasTableFault which bytes error → ⊥ }
{}
