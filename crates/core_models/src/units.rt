//! Sets of units.
ghost use Rattle.std.specs.Prelude.{◌≡◌, ◌<◌, nat_lt, IsTrue};
ghost use Rattle.std.specs.List.{list_all};
ghost use Rattle.core_models.specs.Costs as spec;

// A unit, below 16, beside those of a set.
fn with_unit(set: u16, unit: u8) -> u16
    requires { unit < 16 }
    ensures { result ≡ spec.with_unit set unit }
{
    (1 << unit) | set
}

/// The set of some units, all below 16: bit u for unit u.
pub(crate) fn unit_set(units: &[u8]) -> u16
    requires { IsTrue (list_all (λ unit. nat_lt unit 16) units.now) }
    ensures { result ≡ spec.unit_set units.now }
{
    let mut set = 0;
    for unit in units {
        set = with_unit(set, *unit);
    }
    set
}
