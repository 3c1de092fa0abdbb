// The place of a kind in the paper's order.
ghost use Rattle.std.specs.Prelude.{◌≡◌};
ghost use Rattle.rules.specs.Order.{kind_place};

// By its code: the codes stand in that order.
#[tactic(auto, unfolding(rules::specs::Order::kind_place))]
pub fn kind_place(code: u64) -> u64
    ensures { result ≡ kind_place code }
{
    code
}
