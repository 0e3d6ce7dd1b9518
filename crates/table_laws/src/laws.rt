//! The laws, each the contract of a function with an empty body.
ghost use Rattle.std.specs.Prelude.{ℕ, List as ListValue};
ghost use Rattle.toml.specs.Data.{Members};
ghost use Rattle.rt_tech.specs.declared.sizes.Sizes.{Sizes};
ghost use Rattle.rt_tech.specs.declared.table.Tech.{Tech};
ghost use Rattle.rt_tech.specs.declared.table.Which.{Which};
ghost use Rattle.rt_tech.specs.Tech.{IsGrid, IsValidTech};
ghost use Rattle.rt_keys.specs.Document.{IsDocument};
ghost use Rattle.rt_sizes.specs.SizesFile.{DescribesSizes};
ghost use Rattle.rt_tables.specs.Tables.{IsTechOf, tech_in};
ghost use Rattle.table_laws.specs.Order.{AreInOrder};
ghost use Rattle.table_laws.specs.TableShapes.{HasShape};

/// Law: what is in order is read. Bytes that are a document with all the keys of a rule table and no others, each with its
/// type and its numbers in range and on the grid, are a table where what they say is a valid one.
pub fn what_is_in_order_is_read()
    ensures { (which : Which) (bytes : ListValue ℕ) (doc : Members) → IsDocument bytes doc → HasShape which doc → IsValidTech (tech_in which doc) → IsTechOf which bytes (tech_in which doc) }
{}

/// Law: sizes that are read, for a target table whose grid is 1 to 100, are in order. The cell has a name of printable
/// bytes, a search may make 1 to 100,000 pivots, only kinds of devices are given sizes, no kind and no device twice, and
/// each length and width is 1 to 1,000,000.
pub fn sizes_read_are_in_order()
    ensures { (target : Tech) (bytes : ListValue ℕ) (sizes : Sizes) → IsGrid target.grid → DescribesSizes target bytes sizes → AreInOrder target sizes }
{}
