ghost use Rattle.std.specs.Prelude.{◌≡◌, map};
ghost use Rattle.rt_tech.specs.declared.table.Mask.{Mask};
ghost use Rattle.rt_tech.specs.declared.table.Tech.{Tech};
ghost use Rattle.rt_tech.specs.Tech.{mask_count};
ghost use Rattle.rt_tables.specs.Forms.{HaveSameForm};

/// Law: having one form goes both ways, and two tables of one form have as many masks, with the same
/// roles in order.
pub fn tables_of_one_form_agree()
    ensures back { (s t : Tech) → HaveSameForm s t → HaveSameForm t s }
    ensures masks { (s t : Tech) → HaveSameForm s t → mask_count s ≡ mask_count t }
    ensures roles { (s t : Tech) → HaveSameForm s t → map (λ (mask : Mask). mask.role) s.masks ≡ map (λ (mask : Mask). mask.role) t.masks }
{}
