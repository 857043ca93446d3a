// The sixteen nearest to a target, by value.
#![tactic(auto)]

ghost use Rattle.std.specs.Prelude.{◌≡◌, [], ◌∷◌, ◌++◌, ◌+◌, ◌-◌, ◌≤◌, ◌<◌, min, leb, length, take, drop};
ghost use Rattle.lists.specs.Lists.{before};
ghost use Rattle.closest_nearest.specs.Sort.{insert_by};
ghost use Rattle.closest_nearest.specs.Nearest.{no_near, farness, holding, held, Ordered};

// An entry by the slot of its bucket and its index there from the head, with its distance from the target.
#[derive(Clone, Copy)]
pub struct Near {
    pub slot: usize,
    pub index: usize,
    pub far: [u8; 32],
}

// The nearest so far, nearest first; what lies past `count` is `Near::none()`.
#[derive(Clone, Copy)]
pub struct Nearest {
    pub count: usize,
    pub list: [Near; 16],
}

impl Near {
    pub fn none() -> Near
        ensures { result ≡ no_near }
    {
        Near {
            slot: 0,
            index: 0,
            far: [0; 32],
        }
    }
}

// `x` at index `k`; those from there on move up by one, and the last falls off.
fn put_at(list: [Near; 16], k: usize, x: Near) -> [Near; 16]
    requires { k < 16 }
    ensures { result ≡ take k list ++ x ∷ take (15 - k) (drop k list) }
{
    let mut l = list;
    l.copy_within(k..15, k + 1);
    l[k] = x;
    l
}

fn one_more(count: usize) -> usize
    requires { count ≤ 16 }
    ensures { result ≡ min 16 (count + 1) }
{
    if count < 16 { count + 1 } else { 16 }
}

impl Nearest {
    pub fn none() -> Nearest
        ensures { result ≡ holding [] }
    {
        let n = Near::none();
        Nearest {
            count: 0,
            list: [n; 16],
        }
    }

    // How many of those held are nearer to the target than `x`.
    fn place(self, x: Near) -> usize
        requires { Ordered self }
        ensures { result ≡ length (before (λ b. leb (farness x) (farness b)) (held self)) }
    {
        for k in (0..self.count).rev() {
            if !closest_distance::not_farther(x.far, self.list[k].far) {
                return k + 1;
            }
        }
        0
    }

    // `x` takes its place, before those that are as far; a seventeenth falls off.
    pub fn insert(self, x: Near) -> Nearest
        requires { Ordered self }
        ensures { result ≡ holding (take 16 (insert_by farness x (held self))) }
    {
        let k = self.place(x);
        if 16 <= k {
            return self;
        }
        let list = self.list;
        let count = one_more(self.count);
        Nearest {
            count,
            list: put_at(list, k, x),
        }
    }
}
