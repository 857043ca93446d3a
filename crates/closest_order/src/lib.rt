// The order in which a closest call takes the buckets.
#![tactic(auto)]

ghost use Rattle.std.specs.Prelude.{◌≡◌, ◌-◌, ◌/◌, ◌≤◌, ◌<◌, take};
ghost use Rattle.distance.specs.Distance.{distance};
ghost use Rattle.closest_order.specs.Taking.{is_set, taking_order};

// The index of the byte of a hash that has the binary digit of place `i`, counted from the lowest.
fn byte_of(i: usize) -> usize
    requires { i < 256 }
    ensures { result ≡ 31 - i / 8 }
{
    31 - i / 8
}

// Whether the hashes differ in the binary digit of place `i`, counted from the lowest.
fn bit_differs(a: [u8; 32], b: [u8; 32], i: usize) -> bool
    requires { i < 256 }
    ensures { result ≡ is_set i (distance a b) }
{
    let k = byte_of(i);
    let x = a[k] ^ b[k];
    (x >> (i % 8)) % 2 == 1
}

// The numbers of a table's `count` buckets in the order in which a closest call takes them: the first `count` of the list. From the highest
// number down, those whose digit differs are filled in from the front on, the others from the back.
pub fn taking_order(own: [u8; 32], target: [u8; 32], count: usize) -> [u8; 256]
    requires { count ≤ 256 }
    ensures { take count result ≡ taking_order (distance own target) count }
{
    let mut order = [0; 256];
    let mut front = 0;
    let mut back = count;
    for i in (256 - count..256).rev() {
        if bit_differs(own, target, i) {
            order[front] = i as u8;
            front += 1;
        } else {
            back -= 1;
            order[back] = i as u8;
        }
    }
    order
}
