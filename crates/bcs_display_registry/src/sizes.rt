//! The sizes of values, in bytes.

/// The sizes in bytes of the values of a container.
#[derive(Clone, Copy, Debug, PartialEq, Eq)]
pub enum Sizes {
    /// The container has no value.
    NoValue,
    /// At least `fewest` bytes, and at most `most` bytes if that is known.
    ///
    /// `fewest` saturates at 18446744073709551615; the values may then all be larger. `most` is `None` if a value can
    /// contain a list, a map, a string or a byte string, whose length a registry doesn't bound, or if a value can have
    /// more than 18446744073709551615 bytes.
    Bytes { fewest: u64, most: Option<u64> },
}

impl Sizes {
    /// A length and what it counts.
    pub(crate) const WITH_LENGTH: Sizes = Sizes::Bytes {
        fewest: 1,
        most: None,
    };

    /// Exactly `bytes` bytes.
    pub(crate) fn exactly(bytes: u64) -> Sizes {
        Sizes::Bytes {
            fewest: bytes,
            most: Some(bytes),
        }
    }

    /// A value followed by another value.
    pub(crate) fn followed_by(self, next: Sizes) -> Sizes {
        match (self, next) {
            (
                Sizes::Bytes { fewest, most },
                Sizes::Bytes {
                    fewest: next_fewest,
                    most: next_most,
                },
            ) => Sizes::Bytes {
                fewest: fewest.saturating_add(next_fewest),
                most: sum(most, next_most),
            },
            (Sizes::NoValue, _) | (_, Sizes::NoValue) => Sizes::NoValue,
        }
    }

    /// Either of two values.
    pub(crate) fn or(self, other: Sizes) -> Sizes {
        match (self, other) {
            (Sizes::NoValue, sizes) | (sizes, Sizes::NoValue) => sizes,
            (
                Sizes::Bytes { fewest, most },
                Sizes::Bytes {
                    fewest: other_fewest,
                    most: other_most,
                },
            ) => Sizes::Bytes {
                fewest: fewest.min(other_fewest),
                most: greater(most, other_most),
            },
        }
    }

    /// An option: one byte, followed by the value if it is present.
    pub(crate) fn optional(self) -> Sizes {
        Sizes::exactly(1).or(Sizes::exactly(1).followed_by(self))
    }

    /// `count` values in a row.
    pub(crate) fn times(self, count: u64) -> Sizes {
        match self {
            _ if count == 0 => Sizes::exactly(0),
            Sizes::NoValue => Sizes::NoValue,
            Sizes::Bytes { fewest, most } => Sizes::Bytes {
                fewest: fewest.saturating_mul(count),
                most: product(most, count),
            },
        }
    }
}

fn sum(one: Option<u64>, other: Option<u64>) -> Option<u64> {
    one?.checked_add(other?)
}

fn greater(one: Option<u64>, other: Option<u64>) -> Option<u64> {
    Some(one?.max(other?))
}

fn product(one: Option<u64>, count: u64) -> Option<u64> {
    one?.checked_mul(count)
}
