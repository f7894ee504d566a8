// Rows of pairs of numbers, each pair as a/b and each row ended by a semicolon.
macro_rules! pairs {
    ($($($first:literal / $second:literal)*;)*) => {
        [$([$(($first, $second)),*]),*]
    };
}

pub(crate) use pairs;
