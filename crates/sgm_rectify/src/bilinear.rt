//! Bilinear values. A weight is at most 65536 and the four add up to that, so that the sum of the
//! weighted samples and the half, at most 65536 * 65535 + 32768, fits 32 bits.

ghost use Rattle.std.specs.Prelude.{◌≡◌, ◌+◌, ◌/◌, ◌<◌, ◌≤◌, pos, ◌*◌, ◌≤ℤ◌, IfSome};
ghost use Rattle.sgm_rectify.specs.Bilinear.{whole, fraction, sample_at, weighted, mean_at};
ghost use Rattle.sgm_rectify.specs.Bilinear.{bilinear};

use sgm_base::Image;

/// The sample in a column and a row, None outside the image.
fn sample(image: &Image, column: i64, row: i64) -> Option<u16>
    ensures { result ≡ sample_at image.now column row }
{
    let size = image.size();
    let samples = image.samples();
    if column < 0 || row < 0 || column >= size.width as i64 || row >= size.height as i64 {
        return None;
    }
    Some(samples[row as usize * size.width as usize + column as usize])
}

/// The weight times the sample in a column and a row: 0 where the weight is 0, else None outside
/// the image.
fn weighted(image: &Image, column: i64, row: i64, weight: u32) -> Option<u32>
    requires { weight ≤ 65536 }
    ensures value { result ≡ weighted weight (sample_at image.now column row) }
    ensures most { IfSome result (λ n. n ≤ weight * 65535) }
{
    if weight == 0 {
        return Some(0);
    }
    let sample = sample(image, column, row)?;
    Some(weight * sample as u32)
}

/// floor(u / 256): the column or row at or before a coordinate.
fn whole(u: i64) -> i64
    ensures value { result ≡ whole u }
    ensures most { result ≤ℤ pos 36028797018963968 }
{
    u.div_euclid(256)
}

/// How far a coordinate lies behind it, in 1/256.
fn fraction(u: i64) -> u32
    ensures value { result ≡ fraction u }
    ensures below { result < 256 }
{
    u.rem_euclid(256) as u32
}

/// The sum of the weighted samples over 65536, rounded to the nearest whole number.
fn mean(sum: u32) -> u16
    requires { sum ≤ 4294901760 }
    ensures { result ≡ (sum + 32768) / 65536 }
{
    ((sum + 32768) / 65536) as u16
}

/// The mean of the four samples round a place that lies `right` and `down` behind the column `i`
/// and the row `j`, in 1/256: None where a neighbour of non-zero weight lies outside the image.
fn mean_at(image: &Image, i: i64, j: i64, right: u32, down: u32) -> Option<u16>
    requires i { i ≤ℤ pos 36028797018963968 }
    requires j { j ≤ℤ pos 36028797018963968 }
    requires right { right < 256 }
    requires down { down < 256 }
    ensures { result ≡ mean_at image.now i j right down }
{
    let (left, up) = (256 - right, 256 - down);
    let first = weighted(image, i, j, left * up)?;
    let second = weighted(image, i + 1, j, right * up)?;
    let third = weighted(image, i, j + 1, left * down)?;
    let fourth = weighted(image, i + 1, j + 1, right * down)?;
    Some(mean(first + second + third + fourth))
}

/// The bilinear value at the place (u, v), in 1/256 of a pixel: None where a neighbour of non-zero
/// weight lies outside the image.
pub(crate) fn bilinear(image: &Image, u: i64, v: i64) -> Option<u16>
    ensures { result ≡ bilinear image.now u v }
{
    mean_at(image, whole(u), whole(v), fraction(u), fraction(v))
}
