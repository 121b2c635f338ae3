// Laws of the indexes and of the shifts of periods.
ghost use Rattle.std.specs.Prelude.{◌≡◌, ◌<◌, ◌*◌, ◌+ℤ◌, ℕ, ℤ, Some, IfSome, IsTrue};
ghost use Rattle.std.specs.Ordering.{nat_cmp};
ghost use Rattle.vtl_time.specs.Periods.{YearPart, index_of, is_year_part, parts_in_year, period_at, period_cmp, shift_of};
ghost use Rattle.vtl_time.specs.declared.periods.Frequency.{Frequency};

/// A period is the one at its index, and an index is that of the period at it: so each period of a frequency has one
/// index, below 10,000 times the parts of a year, and each of these indexes one period.
pub fn periods_stand_at_their_indexes()
    ensures period { (p : YearPart) → IsTrue (is_year_part p.frequency p.year p.part) → period_at p.frequency (index_of p) ≡ p }
    ensures index { (f : Frequency) (i : ℕ) → index_of (period_at f i) ≡ i }
    ensures below { (p : YearPart) → IsTrue (is_year_part p.frequency p.year p.part) → index_of p < 10000 * parts_in_year p.frequency }
    ensures valid { (f : Frequency) (i : ℕ) → i < 10000 * parts_in_year f → IsTrue (is_year_part f (period_at f i).year (period_at f i).part) }
{}

/// Periods of one frequency are in the order of their indexes.
pub fn periods_are_ordered_by_index()
    ensures { (p q : YearPart) → IsTrue (is_year_part p.frequency p.year p.part) → IsTrue (is_year_part q.frequency q.year q.part) → p.frequency ≡ q.frequency → period_cmp p q ≡ nat_cmp (index_of p) (index_of q) }
{}

/// What is shifted is a period of the years 0 to 9999. A shift stays within its frequency, and a shift of a shift is one
/// shift by the sum of both.
pub fn shifts_add_up()
    ensures whole { (p q : YearPart) (n : ℤ) → shift_of p n ≡ Some q → IsTrue (is_year_part p.frequency p.year p.part) }
    ensures frequency { (p : YearPart) (n : ℤ) → IfSome (shift_of p n) (λ q. q.frequency ≡ p.frequency) }
    ensures sum { (p q : YearPart) (n m : ℤ) → shift_of p n ≡ Some q → shift_of q m ≡ shift_of p (n +ℤ m) }
{}
