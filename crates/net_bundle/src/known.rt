//! Ascending lists of numbers, and whether a number is in one.
ghost use Rattle.std.specs.Prelude.{◌≡◌, ◌∷◌, ◌&&◌, IsTrue, List, Option, nat_lt, option_map};
ghost use Rattle.cocoon_num.specs.Lists.{ascend, has_number};
ghost use Rattle.net_bundle.specs.NetForm.{location_fits, where_known};

/// Whether the numbers ascend, each once.
pub(crate) fn ascends(numbers: &[u64]) -> bool
    ensures { result ≡ ascend numbers.now }
{
    match numbers.split_first() {
        Some((first, rest)) => rises(*first, rest),
        None => true,
    }
}

fn rises(first: u64, rest: &[u64]) -> bool
    ensures { result ≡ ascend (first ∷ rest.now) }
{
    let mut last = first;
    for number in rest {
        if last >= *number {
            return false;
        }
        last = *number;
    }
    true
}

/// Whether the number is in the list.
#[tactic(auto, using(crate::proofs::Sought::found_as))]
pub(crate) fn has(numbers: &[u64], number: u64) -> bool
    requires { IsTrue (ascend numbers.now) }
    ensures { result ≡ has_number number numbers.now }
{
    numbers.binary_search(&number).is_ok()
}

/// Whether the number is in the list, where that is known.
pub(crate) fn may_have(numbers: &Option<Vec<u64>>, number: u64) -> bool
    requires { IsTrue (where_known ascend (option_map (λ list. list.items) numbers.now)) }
    ensures { result
        ≡ where_known (has_number number) (option_map (λ list. list.items) numbers.now) }
{
    match numbers {
        Some(numbers) => has(numbers, number),
        None => true,
    }
}

fn is_below(ports: Option<u16>, port: u16) -> bool
    ensures { result ≡ where_known (nat_lt port) ports }
{
    match ports {
        Some(ports) => port < ports,
        None => true,
    }
}

/// Whether this is a port of a switch of the network, as far as both are known.
pub(crate) fn is_location(
    ports: Option<u16>,
    switches: &Option<Vec<u64>>,
    switch: u16,
    port: u16,
) -> bool
    requires { IsTrue (where_known ascend (option_map (λ list. list.items) switches.now)) }
    ensures { result
        ≡ location_fits ports (option_map (λ list. list.items) switches.now) (switch, port) }
{
    let there = may_have(switches, switch as u64);
    let below = is_below(ports, port);
    there && below
}
