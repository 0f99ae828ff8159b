// The members that an operation may change, by their words.
#![tactic(auto)]

ghost use Rattle.std.specs.Prelude.{◌≡◌, map, ◌≤◌, length, get_or, take};
ghost use Rattle.table.specs.Lists.{Inside};
ghost use Rattle.touched.specs.Places.{AllBut, Untouched};

// The places of the words that have a variable in `touching`, at the front of `places`; and how many they are.
pub fn touched_places(words: &[u64], touching: u64, places: &mut [u16]) -> usize
    requires { (length words.now ≤ length places.old) × (length words.now ≤ 65536) }
    ensures { (result ≤ length words.now)
        × AllBut (length words.now) (take result places.new) (Untouched words.now touching) }
{
    let mut count: usize = 0;
    for (i, word) in words.iter().enumerate() {
        if *word & touching != 0 {
            places[count] = i as u16;
            count += 1;
        }
    }
    count
}

// The nodes that the list has at the places, at the front of `nodes`.
pub fn nodes_at(list: &[u16], places: &[u16], nodes: &mut [u16])
    requires { Inside (length list.now) places.now × (length places.now ≤ length nodes.old) }
    ensures { take (length places.now) nodes.new
        ≡ map (λ i. get_or list.now i 0) places.now }
{
    for (k, place) in places.iter().enumerate() {
        nodes[k] = list[usize::from(*place)];
    }
}
