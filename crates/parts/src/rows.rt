// The rows that a change stores: a place as it is taken, certified and left.

ghost use Rattle.std.specs.Prelude.{◌≡◌};
ghost use Rattle.house.specs.declared.Standing.TheVariants.{Active, Certified};
ghost use Rattle.house.specs.House.{vacant};

use house::{Place, Standing};

pub fn active(ticket: u32) -> Place
    ensures { result ≡ record { standing = Active; ticket = ticket } }
{
    Place {
        standing: Standing::Active,
        ticket,
    }
}

pub fn certified(place: Place) -> Place
    ensures { result ≡ record { standing = Certified; ticket = place.ticket } }
{
    Place {
        standing: Standing::Certified,
        ..place
    }
}

pub fn left_free() -> Place
    ensures { result ≡ vacant }
{
    Place {
        standing: Standing::Free,
        ticket: 0,
    }
}
