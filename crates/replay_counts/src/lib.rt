// The counts of a replay, and what is said of them on standard error. Each line of that begins with `# `, as no report of a failure does.
#![tactic(auto)]

#[derive(Clone, Copy)]
pub struct Counts {
    pub lines: u64,
    // Answered with 0, and with 21. The other lines were refused.
    pub accepted: u64,
    pub unreadable: u64,
    // Whether progress is shown.
    pub shown: bool,
}

fn print(rt: &impl Eprint, text: &str) {
    programs::say(rt, text);
}

fn print_number(rt: &impl Eprint, n: u64) {
    programs::say(rt, n);
}

// `# 100000 lines`, with no line's end.
fn print_lines(rt: &impl Eprint, lines: u64) {
    print(rt, "# ");
    print_number(rt, lines);
    print(rt, " line");
    if lines != 1 {
        print(rt, "s");
    }
}

// Why no line may be readable.
fn print_unreadable_hint(rt: &impl Eprint) {
    print(
        rt,
        "# hint: no line is readable. A log is plain ASCII: no byte order mark, no UTF-16, no CR before a line's end, ",
    );
    print(rt, "one tab between fields, hex in lower case\n");
}

// What an `own` needs; `refused` if one was read and refused, else none was read.
fn print_own_hint(rt: &impl Eprint, refused: bool) {
    if refused {
        print(
            rt,
            "# hint: the own line was refused, so there is no table. ",
        );
    } else {
        print(rt, "# hint: no own line was read, so there is no table. ");
    }
    print(
        rt,
        "It is own, the number of buckets (1 to 16) and the own key (128 hex digits in lower case), ",
    );
    print(
        rt,
        "one tab between them, with nothing before own and nothing behind the key\n",
    );
}

impl Counts {
    // Before the first line.
    pub fn new(shown: bool) -> Self {
        Counts {
            lines: 0,
            accepted: 0,
            unreadable: 0,
            shown,
        }
    }

    // The counts after one more line, with whose answer `row` begins. Each 100,000 lines are told where progress is shown.
    pub fn after(self, rt: &impl Eprint, row: &[u8]) -> Self {
        let mut counts = self;
        counts.lines = counts.lines.wrapping_add(1);
        if row.len() >= 2 {
            if row[0] == b'0' {
                counts.accepted = counts.accepted.wrapping_add(1);
            } else if row[0] == b'2' && row[1] == b'1' {
                counts.unreadable = counts.unreadable.wrapping_add(1);
            }
        }
        if counts.shown && counts.lines % 100000 == 0 {
            print_lines(rt, counts.lines);
            print(rt, "\n");
        }
        counts
    }

    // The last line: how many lines got which kind of answer. Then what may be wrong with a log that gave no table. `owned`: a well-formed `own` came;
    // `accepted`: it was accepted.
    pub fn print_summary(self, rt: &impl Eprint, owned: bool, accepted: bool) {
        print_lines(rt, self.lines);
        print(rt, ": ");
        print_number(rt, self.accepted);
        print(rt, " accepted, ");
        print_number(
            rt,
            self.lines
                .wrapping_sub(self.accepted)
                .wrapping_sub(self.unreadable),
        );
        print(rt, " refused, ");
        print_number(rt, self.unreadable);
        print(rt, " unreadable\n");
        if accepted || self.lines == 0 {
            return;
        }
        if self.unreadable == self.lines {
            print_unreadable_hint(rt);
        } else {
            print_own_hint(rt, owned);
        }
    }
}
