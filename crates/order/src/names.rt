// The order of names: bytes by the first difference, then length.
ghost use Rattle.std.specs.Prelude.{◌≡◌, List, ℕ, ◌+◌, ◌≤◌, length, take, drop};
ghost use Rattle.std.proofs.Math.Option as paper;
ghost use Rattle.rules.specs.Sizes.{cmp_number};
ghost use Rattle.rules.specs.Order.{cmp_list, cmp_name};
ghost use Rattle.shape.specs.Answers.{order_of};
ghost use Rattle.known.specs.Known.{NameAt, HasName};

use known::name_at;
use std::cmp::Ordering;

// No name before a name. Both stand behind their lengths.
#[tactic(auto, unfolding(rules::specs::Order::cmp_name))]
pub fn cmp_names(a: &[u8], i: usize, b: &[u8], j: usize) -> Ordering
    requires { HasName a.now i × HasName b.now j }
    ensures { (m n : paper.Option (List ℕ)) → NameAt a.now i m → NameAt b.now j n → order_of result ≡ cmp_name m n }
{
    let first = name_at(a, i);
    let second = name_at(b, j);
    match (first.named, second.named) {
        (true, true) => cmp_bytes(&a[first.start..first.end], &b[second.start..second.end]),
        (true, false) => Ordering::Greater,
        (false, true) => Ordering::Less,
        (false, false) => Ordering::Equal,
    }
}

#[tactic(auto, using(crate::proofs::ListLaws::bytes_ordered))]
fn cmp_bytes(a: &[u8], b: &[u8]) -> Ordering
    ensures { order_of result ≡ cmp_list cmp_number a.now b.now }
{
    a.cmp(b)
}
