//! The words of a series.
ghost use Rattle.std.specs.Prelude.{◌≡◌};
ghost use Rattle.sgm_words.specs.Operands.{bytes_of};
ghost use Rattle.sgm_series.specs.Words.{workers_in, series_words};

use std::marker::Model;

/// What is wrong with the words.
#[derive(Clone, Copy, PartialEq, Eq)]
pub enum SeriesUsage {
    /// There is no word, or the first is empty.
    NoList,
    /// The word at this position, counted from 0, isn't `workers=1` or `workers=2` behind the list.
    BadWord { position: usize },
}

/// The words as they are read: LIST, and how many workers match its pairs.
#[derive(Drop)]
pub struct SeriesWords<'a> {
    list: &'a str,
    workers: u32,
}

impl<'a> Model for SeriesWords<'a> {
    ghost use Rattle.sgm_series.specs.Words.{ListWords};

    ghost Value = { ListWords };

    ghost view = { λ w. record { list = w.list.now; workers = w.workers } };
}

impl<'a> SeriesWords<'a> {
    /// The name of the list.
    pub fn list(&self) -> &'a str
        ensures { result.now ≡ self.now.list }
    {
        self.list
    }

    /// How many workers match the pairs.
    pub fn workers(&self) -> u32
        ensures { result ≡ self.now.workers }
    {
        self.workers
    }
}

/// The number of workers that a word asks for.
fn workers_in(word: &str) -> Option<u32>
    ensures { result ≡ workers_in word.now }
{
    match word {
        "workers=1" => Some(1),
        "workers=2" => Some(2),
        _ => None,
    }
}

/// Reads the words: LIST, and then perhaps `workers=1`, which is the default, or `workers=2`.
#[tactic(auto, unfolding(crate::specs::Words::series_words))]
pub fn read_series_words(words: &[String]) -> Result<SeriesWords<'_>, SeriesUsage>
    ensures { result ≡ series_words (bytes_of words.now) }
{
    let Some(list) = words.get(0) else {
        return Err(SeriesUsage::NoList);
    };
    if list.is_empty() {
        return Err(SeriesUsage::NoList);
    }
    let list = list.as_str();
    match words.get(1) {
        None => Ok(SeriesWords { list, workers: 1 }),
        Some(word) => match workers_in(word.as_str()) {
            None => Err(SeriesUsage::BadWord { position: 1 }),
            Some(_) if words.len() > 2 => Err(SeriesUsage::BadWord { position: 2 }),
            Some(workers) => Ok(SeriesWords { list, workers }),
        },
    }
}
