// The lines of a report, written into lent bytes.
#![tactic(auto)]

ghost use Rattle.std.specs.Prelude.{◌≡◌, [], ◌∷◌, ◌++◌, ◌+◌, ◌*◌, ◌≤◌, ◌<◌, length};
ghost use Rattle.laws.specs.Lists.{each};
ghost use Rattle.refusals.specs.Told.{number};
ghost use Rattle.records.specs.Keeping.{told};
ghost use Rattle.report.specs.Text.{decimal, spaced, line_of, total_line, refused_line, conform, report_text};
ghost use Rattle.report_text.specs.Stored.{Stored, fields_kept};
ghost use Rattle.report_text.specs.Wrote.{Wrote};

use records::Record;
use refusals::Refusal;

// Where text goes: lent bytes, and the place behind what is written.
#[derive(Drop)]
pub struct Text<'a> {
    out: &'a mut [u8],
    pub at: usize,
}

impl<'a> Text<'a> {
    // Text that begins at a place.
    pub fn new(out: &'a mut [u8], at: usize) -> Text<'a>
        ensures same_reference { result.out.ghost_name ≡ out.entry.ghost_name }
        ensures empty { (result.out.now ≡ out.old) × (result.at ≡ at) }
    {
        Text { out, at }
    }

    // A text that is at hand.
    fn put(&mut self, text: &[u8])
        requires { self.old.at + length text.now ≤ length self.old.out.now }
        ensures { Wrote (length text.now) text.now self.old self.new }
    {
        let end = self.at + text.len();
        self.out[self.at..end].copy_from_slice(text);
        self.at = end;
    }

    // The digit of a number below ten.
    fn put_digit(&mut self, n: u64)
        requires { (n < 10) × (self.old.at < length self.old.out.now) }
        ensures { Wrote 1 (decimal n) self.old self.new }
    {
        self.out[self.at] = 48 + n as u8;
        self.at += 1;
    }

    // The digits of a number of two.
    fn put_two(&mut self, n: u64)
        requires { (10 ≤ n) × (n < 100) × (self.old.at + 2 ≤ length self.old.out.now) }
        ensures { Wrote 2 (decimal n) self.old self.new }
    {
        self.put_digit(n / 10);
        self.put_digit(n % 10);
    }

    // A number in base ten. One of one digit or two, as kinds and most counts are, goes without the library's buffer, by which it takes three
    // times as long, or one and a half.
    pub fn put_decimal(&mut self, n: u64)
        requires { self.old.at + 20 ≤ length self.old.out.now }
        ensures { Wrote 20 (decimal n) self.old self.new }
    {
        if n < 10 {
            self.put_digit(n);
            return;
        }
        if n < 100 {
            self.put_two(n);
            return;
        }
        let mut digits = itoa::Buffer::new();
        self.put(digits.format(n).as_bytes());
    }

    // A space and a number.
    fn put_spaced(&mut self, n: u64)
        requires { self.old.at + 21 ≤ length self.old.out.now }
        ensures { Wrote 21 (spaced n) self.old self.new }
    {
        self.put(b" ");
        self.put_decimal(n);
    }

    // A space, a number and the end of the line.
    fn put_last(&mut self, n: u64)
        requires { self.old.at + 22 ≤ length self.old.out.now }
        ensures { Wrote 22 (spaced n ++ (10 ∷ [])) self.old self.new }
    {
        self.put_spaced(n);
        self.put(b"\n");
    }

    // The line of a finding.
    pub fn put_line(&mut self, f: Record)
        requires { self.old.at + 128 ≤ length self.old.out.now }
        ensures { Wrote 128 (line_of (told f)) self.old self.new }
    {
        self.put_decimal(f.kind as u64);
        self.put_spaced(f.first as u64);
        self.put_spaced(f.second as u64);
        self.put_spaced(f.a as u64);
        self.put_spaced(f.b as u64);
        self.put_last(f.count as u64);
    }

    // The line of the totals.
    pub fn put_total(&mut self, total: u64, kept: u64)
        requires { self.old.at + 64 ≤ length self.old.out.now }
        ensures { Wrote 64 (total_line total kept) self.old self.new }
    {
        self.put(b"total");
        self.put_spaced(total);
        self.put(b" kept");
        self.put_last(kept);
    }

    // The line of a refusal, which `Display` gives without its end: that writes to what may fail, and its promise is no equation.
    pub fn put_refused(&mut self, refusal: Refusal)
        requires { self.old.at + 32 ≤ length self.old.out.now }
        ensures { Wrote 32 (refused_line (number refusal)) self.old self.new }
    {
        self.put(b"refused");
        self.put_last(refusal.number() as u64);
    }

    // The text of a report without findings.
    pub fn put_conform(&mut self)
        requires { self.old.at + 8 ≤ length self.old.out.now }
        ensures { Wrote 8 conform self.old self.new }
    {
        self.put(b"CONFORM\n");
    }

    // The lines of the first `kept` records.
    fn put_lines(&mut self, findings: &[u8], kept: usize)
        requires { (64 * kept ≤ length findings.now) × (self.old.at + 128 * kept ≤ length self.old.out.now) }
        ensures { Wrote (128 * kept) (each line_of (fields_kept findings.now kept)) self.old self.new }
    {
        let (records, _) = findings.as_chunks::<64>();
        for bytes in &records[..kept] {
            self.put_line(records::fields_of(bytes));
        }
    }

    // The text of a report: the lines of the records kept and the totals, or that there are no findings.
    pub fn put_report(&mut self, findings: &[u8], total: u64, kept: usize)
        requires { (64 * kept ≤ length findings.now) × (self.old.at + (128 * kept + 64) ≤ length self.old.out.now) }
        ensures { Wrote (128 * kept + 64) (report_text (fields_kept findings.now kept) total kept) self.old self.new }
    {
        if total == 0 {
            self.put_conform();
            return;
        }
        self.put_lines(findings, kept);
        self.put_total(total, kept as u64);
    }
}

// The line of a refusal, in lent bytes from a place on; the place behind it.
pub fn put_refused(out: &mut [u8], at: usize, refusal: Refusal) -> usize
    requires { at + 32 ≤ length out.old }
    ensures { Stored out.old at (refused_line (number refusal)) out.new result × (result ≤ at + 32) }
{
    let mut text = Text::new(out, at);
    text.put_refused(refusal);
    text.at
}

// The text of a report in front of lent bytes; the place behind it. Total and kept are two numbers, as C hands them.
pub fn put_report(out: &mut [u8], findings: &[u8], total: u64, kept: usize) -> usize
    requires { (64 * kept ≤ length findings.now) × (128 * kept + 64 ≤ length out.old) }
    ensures { Stored out.old 0 (report_text (fields_kept findings.now kept) total kept) out.new result × (result ≤ length out.old) }
{
    let mut text = Text::new(out, 0);
    text.put_report(findings, total, kept);
    text.at
}
