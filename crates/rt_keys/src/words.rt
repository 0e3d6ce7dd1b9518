//! The words of roles.
ghost use Rattle.std.specs.Prelude.{◌≡◌};
ghost use Rattle.rt_keys.specs.Words as spec;

use rt_tech::Role;

/// The role that a word names: `metal`, `gate`, `active`, `cut` or `background`.
pub fn role_named(word: &str) -> Option<Role>
    ensures { result ≡ spec.role_named word.now }
{
    if word == "metal" {
        Some(Role::Metal)
    } else if word == "gate" {
        Some(Role::Gate)
    } else if word == "active" {
        Some(Role::Active)
    } else if word == "cut" {
        Some(Role::Cut)
    } else if word == "background" {
        Some(Role::Background)
    } else {
        None
    }
}

/// Whether the two roles are the same.
pub fn same_role(a: Role, b: Role) -> bool
    ensures { result ≡ spec.same_role a b }
{
    a == b
}
