//! The laws of the templates, each a function without a body whose contract is the law.
ghost use Rattle.rt_template.specs.Horizontal.{OneRowAcross};
ghost use Rattle.rt_template.specs.Vertical.{OneRowUpwards};

/// Law: a name has one row at most across.
pub fn one_row_across()
    ensures { OneRowAcross }
{}

/// Law: a name has one row at most upwards, at the same columns.
pub fn one_row_upwards()
    ensures { OneRowUpwards }
{}
