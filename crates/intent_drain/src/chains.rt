ghost use Rattle.std.specs.Prelude.{◌≡◌, ◌<◌, ◌≤◌, ◌*◌, ◌↔◌, ℕ, IfSome, IsNone, None, length, sum_by, is_none, position};
ghost use Rattle.intent_drain.specs.Chains.{count_in, owed_by};

use defer_chain::Chain;

/// So many chains may be open.
pub const MOST_CHAINS: usize = 16;

/// How many unfinished intents of the group these chains have.
#[tactic(auto, unfolding(crate::specs::Chains::count_in))]
pub fn count_of(chains: &[Option<Chain>], group: u32) -> u32
    requires { length chains.now ≡ MOST_CHAINS }
    ensures { result ≡ count_in group chains.now }
{
    let mut count = 0;
    for chain in chains {
        count += owes(chain, group);
    }
    count
}

// How many the chain of one place has.
fn owes(chain: &Option<Chain>, group: u32) -> u32
    ensures value { result ≡ owed_by group chain.now }
    ensures few { result ≤ 6 }
{
    match chain {
        Some(chain) => chain.owes(group),
        None => 0,
    }
}
