// The text of a second.
ghost use Rattle.std.specs.Prelude.{◌≡◌, ◌∷◌, []};
ghost use Rattle.mdoc_dates.specs.Tdate.{tdate_text, two_digits};

use crate::calendar::date_of;

/// The `tdate` of the moment so many seconds after 1970-01-01T00:00:00Z: `YYYY-MM-DDTHH:MM:SSZ` in ASCII. It
/// is a date of the calendar for a second before the year 10000, that is, below 253402300800.
pub fn tdate_text(seconds: u64) -> [u8; 20]
    ensures { result ≡ tdate_text seconds }
{
    let date = date_of(seconds / 86_400);
    let [a, b] = two_digits(date.year / 100);
    let [c, d] = two_digits(date.year);
    let [e, f] = two_digits(date.month);
    let [g, h] = two_digits(date.day);
    let [i, j] = two_digits(seconds / 3600 % 24);
    let [k, l] = two_digits(seconds / 60 % 60);
    let [m, n] = two_digits(seconds % 60);
    [
        a, b, c, d, b'-', e, f, b'-', g, h, b'T', i, j, b':', k, l, b':', m, n, b'Z',
    ]
}

// The last two digits of a number.
fn two_digits(number: u64) -> [u8; 2]
    ensures { result ≡ two_digits number }
{
    let tens = (number / 10 % 10) as u8;
    let ones = (number % 10) as u8;
    [b'0' + tens, b'0' + ones]
}
