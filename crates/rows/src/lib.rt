// The row of a message, chunk after chunk; the damage and the distance of two rows; the calls encode and distance.
#![tactic(auto)]

ghost use Rattle.std.specs.Prelude.{◌≡◌, ◌+◌, ◌*◌, ◌^◌, ◌<◌, ◌≤◌, length, get_or};
ghost use Rattle.defs.specs.Place.{Symbols};
ghost use Rattle.defs.specs.Row.{coefficient, row_of};
ghost use Rattle.defs.specs.Distance.{agree, damage, distance};
ghost use Rattle.defs.specs.Limits.{deepest, longest};
ghost use Rattle.defs.specs.Encode.{Encoded, distance_verdict, distance_answer};
ghost use Rattle.theory.specs.Fill.{filled};
ghost use Rattle.code.specs.Checked.{points_of};
ghost use Rattle.rows.specs.Tables.{PowersOf, LogsFor, LogsOf, ProductLog, ExponentsOf};
ghost use Rattle.code.specs.Chunk.{chunk_of};
ghost use Rattle.rows.specs.Chunk.{Evaluable, common_front, Writable, Rows};

use defs::{Code, DEEPEST, LONGEST, Refusal};
use field::{Field, POWERS};

// The logarithm of 0: it leads past the powers of every field, twice round, to where zeros stand.
const NOWHERE: usize = POWERS;

// The powers and the zeros behind them.
const PLACES: usize = NOWHERE + 256;

// The powers of 2, twice round, with zeros behind them, so that the logarithm of 0 needs no branch.
fn powers(field: Field) -> [u8; PLACES]
    ensures { PowersOf field.m result }
{
    let mut table = [0; PLACES];
    let mut x = 1;
    for i in 0..2 * (field.size() - 1) {
        table[i] = x;
        x = field.times2(x);
    }
    table
}

// The logarithm of each symbol.
fn logs(field: Field, powers: &[u8; PLACES]) -> [usize; 256]
    requires { PowersOf field.m powers.now }
    ensures { LogsFor field.m result }
{
    let mut table = [NOWHERE; 256];
    for i in 0..field.size() - 1 {
        table[usize::from(powers[i])] = i;
    }
    table
}

// The logarithms of a message's symbols.
fn symbol_logs(field: Field, message: &[u8], logs: &[usize; 256]) -> [usize; LONGEST]
    requires symbols { Symbols field.m message.now × (length message.now ≤ longest) }
    requires logs_for { LogsFor field.m logs.now }
    ensures { LogsOf field.m message.now result }
{
    let mut table = [0; LONGEST];
    for (i, &symbol) in message.iter().enumerate() {
        table[i] = logs[usize::from(symbol)];
    }
    table
}

// A logarithm of the product of the powers a and b of 2. The order of 2 is one less than size, so size counts for 1, and no branch is needed.
fn product_log(field: Field, a: usize, b: usize) -> usize
    requires { (a < 2 ^ field.m) × (b < 2 ^ field.m) }
    ensures { ProductLog field.m a b result }
{
    let size = field.size();
    let sum = a + b;
    sum % size + sum / size
}

// A message whose terms are looked up. The tables are borrowed: an encode makes them once, and to move them here would cost more than the terms of a short message.
#[derive(Drop)]
struct Terms<'a> {
    field: Field,
    message: &'a [u8],
    powers: &'a [u8; PLACES],
    logs: &'a [usize; 256],
    symbols: &'a [usize; LONGEST],
    ghost short: { length message.now ≤ longest },
    ghost inside: { Symbols field.m message.now },
    ghost powers_of: { PowersOf field.m powers.now },
    ghost logs_for: { LogsFor field.m logs.now },
    ghost symbols_of: { LogsOf field.m message.now symbols.now },
}

impl Terms<'_> {
    // The Hasse coefficient 0 at a point that is not 0: every term counts. The logarithms of the point's powers are written down on the way,
    // for the other coefficients.
    fn first_coefficient(&self, point: u8, exponents: &mut [u8; LONGEST]) -> u8
        requires { (point < 2 ^ self.now.field.m) × (point ≡ 0 → ⊥) }
        ensures value { result ≡ coefficient self.now.field.m self.now.message.now point 0 }
        ensures exponents_of { ExponentsOf self.now.field.m point (length self.now.message.now) exponents.new }
    {
        let step = self.logs[usize::from(point)];
        let mut sum = 0;
        let mut e = 0;
        for i in 0..self.message.len() {
            // It fits, as is proved; try_from would bring a branch that no run takes.
            exponents[i] = e as u8;
            sum ^= self.powers[self.symbols[i] + e];
            e = product_log(self.field, e, step);
        }
        sum
    }

    // The Hasse coefficient j at such a point. The exponents stand for the point, which only the contract names. Terms with an even binomial are passed over.
    fn coefficient(&self, point: u8, j: usize, exponents: &[u8; LONGEST]) -> u8
        requires { ExponentsOf self.now.field.m point (length self.now.message.now) exponents.now }
        ensures { result ≡ coefficient self.now.field.m self.now.message.now point j }
    {
        let mut sum = 0;
        let mut i = j;
        // A while, since the index goes on to the next odd binomial, which no range counts.
        while i < self.message.len() {
            sum ^= self.powers[self.symbols[i] + usize::from(exponents[i - j])];
            i = field::next_odd(i, j);
        }
        sum
    }

    // The chunk at a point: its first r Hasse coefficients. What stands in exponents is written over.
    fn chunk_at(&self, point: u8, r: usize, exponents: &mut [u8; LONGEST]) -> [u8; DEEPEST]
        requires point { point < 2 ^ self.now.field.m }
        requires depth { (1 ≤ r) × (r ≤ deepest) }
        ensures { result ≡ chunk_of r (coefficient self.now.field.m self.now.message.now point) }
    {
        if point == 0 {
            return code::chunk_of(self.message, 0, self.message.len().min(r));
        }
        let mut chunk = [0; DEEPEST];
        chunk[0] = self.first_coefficient(point, exponents);
        for j in 1..r {
            chunk[j] = self.coefficient(point, j, exponents);
        }
        chunk
    }

    // Writes the chunks at the points into a row.
    fn write(&self, points: &[u8], r: usize, row: &mut [u8])
        requires points { Symbols self.now.field.m points.now }
        requires depth { (1 ≤ r) × (r ≤ deepest) }
        requires room { length row.old ≡ r * length points.now }
        ensures { row.new ≡ row_of self.now.field.m r points.now self.now.message.now }
    {
        let mut exponents = [0; LONGEST];
        for (i, &point) in points.iter().enumerate() {
            let chunk = self.chunk_at(point, r, &mut exponents);
            store(row, i * r, r, chunk);
        }
    }
}

// The chunk of a message at a point, its first r Hasse coefficients, for a caller outside who has the tables at hand. A row is written by Terms, to which they are lent once.
pub fn evaluate(
    m: usize,
    r: usize,
    point: u8,
    message: &[u8],
    symbols: &[usize; LONGEST],
    logs: &[usize; 256],
    powers: &[u8; PLACES],
) -> [u8; DEEPEST]
    requires { Evaluable m r point message.now symbols.now logs.now powers.now }
    ensures { result ≡ chunk_of r (coefficient m message.now point) }
{
    let terms = Terms {
        field: Field { m },
        message,
        powers,
        logs,
        symbols,
    };
    terms.chunk_at(point, r, &mut [0; LONGEST])
}

// Writes a chunk into a row.
pub fn store(row: &mut [u8], at: usize, r: usize, chunk: [u8; DEEPEST])
    requires { (r ≤ deepest) × (at + r ≤ length row.old) }
    ensures { row.new ≡ filled row.old at (λ j. get_or chunk j 0) r }
{
    row[at..at + r].copy_from_slice(&chunk[..r]);
}

// Writes the row of a message.
pub fn write_row(code: &Code, message: &[u8], row: &mut [u8])
    requires { Writable code.now message.now row.old }
    ensures { row.new ≡ row_of code.now.m code.now.r (points_of code.now) message.now }
{
    let field = code::field_of(code);
    let powers = powers(field);
    let logs = logs(field, &powers);
    let symbols = symbol_logs(field, message, &logs);
    let terms = Terms {
        field,
        message,
        powers: &powers,
        logs: &logs,
        symbols: &symbols,
    };
    terms.write(&code.points[..code.count], code.r, row);
}

// The number of symbols in front that two chunks have alike.
fn common_front(a: &[u8], b: &[u8]) -> usize
    requires { length a.now ≡ length b.now }
    ensures { result ≡ common_front a.now b.now }
{
    a.iter().zip(b).take_while(|(x, y)| x == y).count()
}

// The depth to which two chunks of depth r agree.
pub fn agree(a: [u8; DEEPEST], b: [u8; DEEPEST], r: usize) -> usize
    requires { r ≤ deepest }
    ensures { result ≡ agree r (λ j. get_or a j 0) (λ j. get_or b j 0) }
{
    common_front(&a[..r], &b[..r])
}

// Two rows of count chunks, each r deep, that are compared.
#[derive(Drop)]
pub struct TwoRows<'a> {
    pub r: usize,
    pub count: usize,
    pub a: &'a [u8],
    pub b: &'a [u8],
    pub ghost chunks: { Rows r count a.now b.now },
}

impl TwoRows<'_> {
    // The depth of damage in chunk i.
    pub fn damage(&self, i: usize) -> usize
        requires { i < self.now.count }
        ensures { result ≡ damage self.now.r self.now.a.now self.now.b.now i }
    {
        let at = i * self.r;
        let end = at + self.r;
        self.r - common_front(&self.a[at..end], &self.b[at..end])
    }

    // The depths of damage in all chunks, added up.
    pub fn distance(&self) -> usize
        ensures { result ≡ distance self.now.r self.now.count self.now.a.now self.now.b.now }
    {
        let mut sum = 0;
        for i in 0..self.count {
            sum += self.damage(i);
        }
        sum
    }
}

// 2 and 7, on the lengths of two rows.
pub fn check_lengths(r: usize, n: usize, other: usize) -> Result<(), Refusal>
    ensures { result ≡ distance_verdict r n other }
{
    if r == 0 || DEEPEST < r {
        return Err(Refusal::Depth);
    }
    if n != other || n == 0 || LONGEST < n || n % r != 0 {
        return Err(Refusal::Length);
    }
    Ok(())
}

// The distance of two rows of any bytes.
pub fn distance(r: usize, a: &[u8], b: &[u8]) -> Result<usize, Refusal>
    ensures { result ≡ distance_answer r a.now b.now }
{
    check_lengths(r, a.len(), b.len())?;
    let count = a.len() / r;
    let rows = TwoRows { r, count, a, b };
    Ok(rows.distance())
}

// Writes the row of a message, or refuses and leaves the buffer as it was.
// The numbers come loose, since nothing is known of them before the checks.
pub fn encode(
    m: usize,
    r: usize,
    k: usize,
    points: &[u8],
    message: &[u8],
    row: &mut [u8],
) -> Result<usize, Refusal>
    ensures { Encoded m r k points.now message.now row.old result row.new }
{
    let code = code::check_code(m, r, k, points)?;
    if message.len() != k || row.len() != r * points.len() {
        return Err(Refusal::Length);
    }
    code::check_symbols(code::field_of(&code), message)?;
    write_row(&code, message, row);
    Ok(0)
}
