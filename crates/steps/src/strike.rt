// Strikings, and the members that no striking has taken out.
ghost use Rattle.std.specs.Prelude.{◌≡◌, List, ℕ, ◌≤◌, length, take};
ghost use Rattle.verdict.specs.Steps.{unstruck, strike_step};
ghost use Rattle.state.specs.States.{lent_of, state_of, Held, Stepped};

use records::MemberNo;
use state::{State, Step};

// The striking marks its member; or 16, 28. The code's state holds no marks, so it stays.
pub fn strike_step(struck: &mut [u8], st: State, k: MemberNo) -> Step
    requires { st.members ≤ length struck.old }
    ensures { (n : ℕ) (vs ls hs ds ks ms cs : List ℕ) → (
        let lent = lent_of vs ls hs ds ks ms cs struck.old in
        let returned = lent_of vs ls hs ds ks ms cs struck.new in
        Held n lent st → Stepped n lent returned st (strike_step (state_of lent st) k.0) result) }
{
    if crate::witness::waits(st.witness) {
        return Step::Stop {
            number: 16,
            offset: 0,
        };
    }
    let i = k.0 as usize;
    if st.members <= i {
        return Step::Stop {
            number: 28,
            offset: 0,
        };
    }
    if struck[i] != 0 {
        return Step::Stop {
            number: 28,
            offset: 0,
        };
    }
    struck[i] = 1;
    Step::Next(st)
}

// The nodes of the first m members that are not struck, by place, at the front of `live`; and how many they are.
pub fn live_members(members: &[u16], struck: &[u8], m: usize, live: &mut [u16]) -> usize
    requires { (m ≤ length members.now) × (m ≤ length struck.now) × (m ≤ length live.old) }
    ensures { (result ≤ m) × (take result live.new ≡ unstruck (take m struck.now) (take m members.now)) }
{
    let mut count: usize = 0;
    for i in 0..m {
        if struck[i] == 0 {
            live[count] = members[i];
            count += 1;
        }
    }
    count
}
