//! A part of a statistic while it is counted: no value so far, known, or unknown from now on.
ghost use Rattle.std.specs.Prelude.{◌≡◌};
ghost use Rattle.std.specs.Ordering.{flip_args};
ghost use Rattle.orc_stats.specs.Seen.{both, seen_of, known_of};
ghost use Rattle.orc_stats.specs.Statistics.{lower};
ghost use Rattle.orc_stats.specs.declared.seen.Seen.TheVariants.{Known};

/// What was seen of a part of a statistic.
#[derive(Clone, Copy, Debug)]
pub enum Seen<T> {
    /// No value so far.
    Nothing,
    /// The part for all values that were seen.
    Known(T),
    /// There was a value for which the part is unknown.
    Unknown,
}

/// Returns the lower of two values in their order.
pub(crate) fn lower<T: Ord + Copy>(x: T, y: T) -> T
    ensures { result ≡ lower T.cmp x y }
{
    if x.cmp(&y).is_gt() { y } else { x }
}

/// Returns the higher of two values in their order.
pub(crate) fn higher<T: Ord + Copy>(x: T, y: T) -> T
    ensures { result ≡ lower (flip_args T.cmp) x y }
{
    if y.cmp(&x).is_gt() { y } else { x }
}

impl<T: Copy> Seen<T> {
    /// Returns a part of a statistic that has values.
    pub(crate) fn of(part: Option<T>) -> Seen<T>
        ensures { result ≡ seen_of part }
    {
        match part {
            Some(value) => Seen::Known(value),
            None => Seen::Unknown,
        }
    }

    /// Returns the part, if it is known.
    pub(crate) fn known(self) -> Option<T>
        ensures { result ≡ known_of self }
    {
        match self {
            Seen::Known(value) => Some(value),
            Seen::Nothing | Seen::Unknown => None,
        }
    }
}

impl<T: Ord + Copy> Seen<T> {
    /// Becomes the least of what was seen and of one more value.
    #[inline(always)]
    pub(crate) fn keep_least(&mut self, value: T)
        ensures { self.new ≡ both (lower T.cmp) self.old (Known value) }
    {
        match self {
            Seen::Known(least) => {
                if (*least).cmp(&value).is_gt() {
                    *least = value;
                }
            }
            Seen::Nothing => *self = Seen::Known(value),
            Seen::Unknown => {}
        }
    }

    /// Becomes the greatest of what was seen and of one more value.
    #[inline(always)]
    pub(crate) fn keep_greatest(&mut self, value: T)
        ensures { self.new ≡ both (lower (flip_args T.cmp)) self.old (Known value) }
    {
        match self {
            Seen::Known(greatest) => {
                if value.cmp(greatest).is_gt() {
                    *greatest = value;
                }
            }
            Seen::Nothing => *self = Seen::Known(value),
            Seen::Unknown => {}
        }
    }

    /// Returns the least of both.
    pub(crate) fn least(self, other: Seen<T>) -> Seen<T>
        ensures { result ≡ both (lower T.cmp) self other }
    {
        match (self, other) {
            (Seen::Nothing, part) | (part, Seen::Nothing) => part,
            (Seen::Known(x), Seen::Known(y)) => Seen::Known(lower(x, y)),
            _ => Seen::Unknown,
        }
    }

    /// Returns the greatest of both.
    pub(crate) fn greatest(self, other: Seen<T>) -> Seen<T>
        ensures { result ≡ both (lower (flip_args T.cmp)) self other }
    {
        match (self, other) {
            (Seen::Nothing, part) | (part, Seen::Nothing) => part,
            (Seen::Known(x), Seen::Known(y)) => Seen::Known(higher(x, y)),
            _ => Seen::Unknown,
        }
    }
}
