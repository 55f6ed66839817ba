// Where the terms in a term stand: those of a prefix, of a choice and of a parallel.
ghost use Rattle.std.specs.Prelude.{◌≡◌, ◌<◌};
ghost use Rattle.table.specs.Node.{follower_spot, side_spot, beside_spot};

use table::Spot;

// Where a prefix's follower stands.
pub fn follower(spot: Spot) -> Spot
    requires { spot.prefixes < 32 }
    ensures { result ≡ follower_spot spot }
{
    Spot {
        prefixes: spot.prefixes + 1,
        parallel: spot.parallel,
        entry: 1,
        own: spot.own,
    }
}

// Where a choice's sides stand.
pub fn side(spot: Spot) -> Spot
    ensures { result ≡ side_spot spot }
{
    Spot {
        prefixes: spot.prefixes,
        parallel: spot.parallel,
        entry: 0,
        own: spot.own,
    }
}

// Where a parallel's sides stand.
pub fn beside(spot: Spot) -> Spot
    ensures { result ≡ beside_spot spot }
{
    Spot {
        prefixes: spot.prefixes,
        parallel: 1,
        entry: 0,
        own: spot.own,
    }
}
