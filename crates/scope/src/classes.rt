// The classes joined on the path, in the scope's store of sets.
ghost use Rattle.std.specs.Prelude.{◌≡◌, ◌<◌};
ghost use Rattle.definition.specs.Book.{most};
ghost use Rattle.sets.specs.View.{Made};
ghost use Rattle.scope.specs.Classes.{Joins};

use crate::Scope;
use sets::Store;

// Internal: the scope inside an Equal, where the classes of two sites are one. Two different sites are never refused.
pub fn join(scope: Scope, x: usize, y: usize) -> Scope
    requires { Made scope.root scope.rank × ((x < most) × ((y < most) × (x ≡ y → ⊥))) }
    ensures { Joins x y scope result }
{
    let Scope { states, root, rank } = scope;
    let mut classes = Store { root, rank };
    let _ = classes.merge(x, y);
    let Store { root, rank } = classes;
    Scope { states, root, rank }
}
