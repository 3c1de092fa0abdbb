// The names in force.
ghost use Rattle.std.specs.Prelude.{◌≡◌, List, ℕ, ◌≤◌, ◌<◌, length};
ghost use Rattle.model.specs.Types.{Ty};
ghost use Rattle.machine.specs.SheetLimits.{max_names};
ghost use Rattle.machine.specs.Written.{TableName};
ghost use Rattle.machine.specs.Names as names;
ghost use Rattle.machine.specs.Names.{Names, type_in_force};
ghost use Rattle.names.specs.Table.{NameStands, Declares, InForce, HasNames, place_of, LookedUpIs};

use crate::same::same_name;
use limits::MAX_NAMES;

// Where the type stands that a name was last declared with.
#[derive(Clone, Copy)]
pub struct Declared {
    pub start: usize,
    pub end: usize,
}

// The type in force for the name whose length stands at a place.
pub fn look_up(
    s: &[u8],
    places: &[usize],
    bounds: &[usize],
    count: usize,
    name: usize,
) -> Option<Declared>
    requires { HasNames s.now places.now bounds.now count × ((n : TableName) × NameStands s.now name n) }
    ensures { (ns : Names) (n : TableName) → InForce s.now places.now bounds.now count ns → NameStands s.now name n
        → LookedUpIs result s.now (type_in_force ns n) }
{
    let k = find(s, places, count, name);
    if k == count {
        return None;
    }
    let at = places[k];
    Some(Declared {
        start: at + 1 + s[at] as usize,
        end: bounds[k],
    })
}

// Declares the name whose length stands at a place, its type being the one behind it. Answers how many names there are then; if there
// would be more than may be, it keeps what there was.
pub fn declare(
    s: &[u8],
    places: &mut [usize],
    bounds: &mut [usize],
    count: usize,
    name: usize,
    end: usize,
) -> usize
    requires { HasNames s.now places.old bounds.old count × ((n : TableName) × (t : Ty) × Declares s.now name end n t) }
    ensures { (ns : Names) (n : TableName) (t : Ty) → InForce s.now places.old bounds.old count ns → Declares s.now name end n t
        → (result ≡ length (names.declare ns n t))
        × (result ≤ max_names → InForce s.now places.new bounds.new result (names.declare ns n t))
        × (max_names < result → (places.new ≡ places.old) × (bounds.new ≡ bounds.old)) }
{
    let k = find(s, &*places, count, name);
    if k == MAX_NAMES {
        return MAX_NAMES + 1;
    }
    places[k] = name;
    bounds[k] = end;
    if k < count { count } else { count + 1 }
}

// Which of the names it is, or how many there are, if it is none of them.
fn find(s: &[u8], places: &[usize], count: usize, name: usize) -> usize
    requires { ((bounds : List ℕ) × HasNames s.now places.now bounds count) × ((n : TableName) × NameStands s.now name n) }
    ensures low { result ≤ count }
    ensures place { (bounds : List ℕ) (ns : Names) (n : TableName) → InForce s.now places.now bounds count ns → NameStands s.now name n → result ≡ place_of ns n }
{
    for k in 0..count {
        if same_name(s, places[k], name) {
            return k;
        }
    }
    count
}
