// The groups of a file of cases, line by line, and what is printed of them. `# group NAME` opens a
// group whose stored answers are right, `# wrong NAME` one where they are wrong on purpose. Of each
// it is printed what was found:
//     NAME CASES                                 no case is wrong
//     NAME WRONG of CASES wrong, first CASE      else, with the first wrong case, counted from 1
// and at the end `ok`, if every case came out as its group says. A line that is no comment and no
// part of a case stops the run: `malformed: line N`. What a line makes of a tally is defined in
// `specs/Tally.antt`.
ghost use Rattle.std.specs.Prelude.{◌≡◌};
ghost use Rattle.cases.specs.Tally.{outcome_of, one_more, standing_after, case_counted, new_group};
ghost use Rattle.cases.specs.Tally.{judged, opened, counted, line_more, refused, taken, told, ok_at};

use crate::fault::Fault;
use std::io::Write;
use std::{fmt, io};

// What came of a line: a part of a case, or a case that is right or wrong.
#[derive(Clone, Copy, PartialEq, Eq, Debug)]
pub enum Outcome {
    Part,
    Right,
    Wrong,
}

impl From<bool> for Outcome {
    ghost from_gives = { λ right outcome. outcome ≡ outcome_of right };

    fn from(right: bool) -> Outcome {
        if right {
            Outcome::Right
        } else {
            Outcome::Wrong
        }
    }
}

// Whether every case came out as its group says so far, or not, or a line was malformed.
#[derive(Clone, Copy, PartialEq, Eq, Debug)]
pub enum Standing {
    AsDue,
    Amiss,
    Malformed,
}

// A group: whether its answers are wrong on purpose, how many cases it had, how many of them were
// wrong, and the first of these.
#[derive(Clone, Copy)]
pub struct Group {
    wrong: bool,
    cases: u64,
    found: u64,
    first: Option<u64>,
}

// Where the run stands: the lines that were read, the open group, and how all came out.
#[derive(Clone, Copy)]
pub struct Tally {
    lines: u64,
    group: Option<Group>,
    standing: Standing,
}

// One more, as far as any file goes.
#[tactic(auto, unfolding(crate::specs::Tally::one_more))]
fn more(n: u64) -> u64
    ensures { result ≡ one_more n }
{
    if n < 1000000000 { n + 1 } else { n }
}

impl Standing {
    // After a case that came out as its group says, or did not.
    fn after(self, due: bool) -> Standing
        ensures { result ≡ standing_after due self }
    {
        match self {
            Standing::AsDue if !due => Standing::Amiss,
            _ => self,
        }
    }
}

impl Group {
    fn new(wrong: bool) -> Group
        ensures { result ≡ new_group wrong }
    {
        Group {
            wrong,
            cases: 0,
            found: 0,
            first: None,
        }
    }

    // One case more, which was wrong or right.
    fn count(mut self, wrong: bool) -> Group
        ensures { result ≡ case_counted wrong self }
    {
        self.cases = more(self.cases);
        if wrong {
            self.found = more(self.found);
            self.first = Some(self.first.unwrap_or(self.cases));
        }
        self
    }
}

impl fmt::Display for Group {
    fn fmt<W: fmt::Write>(&self, f: &mut fmt::Formatter<W>) -> fmt::Result {
        let cases = self.cases;
        let found = self.found;
        match self.first {
            None => write!(f, "{cases}"),
            Some(first) => write!(f, "{found} of {cases} wrong, first {first}"),
        }
    }
}

impl Tally {
    pub fn new() -> Tally {
        Tally {
            lines: 0,
            group: None,
            standing: Standing::AsDue,
        }
    }

    pub fn is_malformed(&self) -> bool {
        matches!(self.standing, Standing::Malformed)
    }

    fn next_line(&mut self)
        ensures { self.new ≡ line_more self.old }
    {
        self.lines = more(self.lines);
    }

    fn judge(&mut self, group: Group, wrong: bool)
        ensures { self.new ≡ judged wrong group self.old }
    {
        self.group = Some(group.count(wrong));
        self.standing = self.standing.after(wrong == group.wrong);
    }

    // A line that is no comment; before the first group there is none.
    #[tactic(auto, unfolding(crate::specs::Tally::counted))]
    pub fn count(&mut self, outcome: Outcome)
        ensures { self.new ≡ counted outcome self.old }
    {
        self.next_line();
        match (self.group, outcome) {
            (None, _) => self.standing = Standing::Malformed,
            (Some(_), Outcome::Part) => {}
            (Some(group), Outcome::Right) => self.judge(group, false),
            (Some(group), Outcome::Wrong) => self.judge(group, true),
        }
    }

    // A line that is neither a comment nor a part of a case.
    pub fn refuse(&mut self)
        ensures { self.new ≡ refused self.old }
    {
        self.next_line();
        self.standing = Standing::Malformed;
    }

    // What came of a line that is no comment. Where memory ended nothing is counted, and that is handed on.
    pub fn take(&mut self, tried: Result<Outcome, Fault>) -> Result<(), Fault>
        ensures counted { self.new ≡ taken tried self.old }
        ensures told { result ≡ told tried }
    {
        match tried {
            Ok(outcome) => self.count(outcome),
            Err(Fault::Malformed) => self.refuse(),
            Err(Fault::OutOfMemory) => return Err(Fault::OutOfMemory),
        }
        Ok(())
    }

    fn open(&mut self, wrong: bool)
        ensures { self.new ≡ opened wrong self.old }
    {
        self.group = Some(Group::new(wrong));
    }

    // The rest of the group's line.
    fn close<R: Print>(&self, rt: &R) -> io::Result<()> {
        match self.group {
            None => Ok(()),
            Some(group) => println!(rt; " {group}"),
        }
    }

    // A comment: `# group NAME` or `# wrong NAME`, or another.
    pub fn take_comment<R: Print>(&mut self, rt: &R, line: &[u8]) -> io::Result<()> {
        self.next_line();
        let (name, wrong) = if let Some(name) = line.strip_prefix(b"# group ") {
            (name, false)
        } else if let Some(name) = line.strip_prefix(b"# wrong ") {
            (name, true)
        } else {
            return Ok(());
        };
        self.close(rt)?;
        io::writer(rt).write_all(name)?;
        self.open(wrong);
        Ok(())
    }

    // Whether every case came out as its group says; `read` says whether the file was read to its end.
    fn is_ok(&self, read: bool) -> bool
        ensures { result ≡ ok_at read self.now }
    {
        match (self.group, self.standing) {
            (Some(_), Standing::AsDue) => read,
            _ => false,
        }
    }

    // The last lines.
    pub fn finish<R: Print>(&self, rt: &R, read: bool) -> io::Result<()> {
        self.close(rt)?;
        if self.is_malformed() {
            let lines = self.lines;
            println!(rt; "malformed: line {lines}")?;
        }
        if self.is_ok(read) {
            println!(rt; "ok")?;
        }
        Ok(())
    }
}
