//! The job that the words of a command line ask for.
ghost use Rattle.std.specs.Prelude.{◌≡◌, ◌≤◌, false, true, map, None, Some, MatchOption, IfSome, string_bytes};
ghost use Rattle.adc_inputs.specs.Words as words_specs;
ghost use Rattle.adc_inputs.specs.Words.{is_name, number_within};
ghost use Rattle.adc_inputs.specs.Jobs.{job_seen};

use crate::job::{
    AllowedJob, BuildJob, ExactJob, Job, PlayJob, RadiusJob, RecallJob, RerankJob, ResidualJob,
    SampleJob, SearchJob, UpgradeJob,
};
use play_script::number;

/// The name that a word is, if it is not empty.
fn name_of(word: &String) -> Option<&str>
    ensures { MatchOption result (is_name (string_bytes word.now) ≡ false) (λ name. (name.now ≡ string_bytes word.now) × (is_name (string_bytes word.now) ≡ true)) }
{
    if word.is_empty() {
        None
    } else {
        Some(word.as_str())
    }
}

/// The number that a word spells, if it lies within these bounds.
#[tactic(auto, unfolding(crate::specs::Words::number_within))]
fn number_of(word: &String, low: u32, high: u32) -> Option<u32>
    ensures value { result ≡ number_within low high (string_bytes word.now) }
    ensures low { IfSome result (λ n. low ≤ n) }
    ensures high { IfSome result (λ n. n ≤ high) }
{
    match number(word.as_str().as_bytes()) {
        Some(n) if u64::from(low) <= n && n <= u64::from(high) => Some(n as u32),
        _ => None,
    }
}

/// The files of a play, by the words behind its verb.
fn play_files_of(words: &[String]) -> Option<PlayJob<'_>>
    ensures play { MatchOption result (words_specs.play_of (map string_bytes words.now) ≡ None) (λ job. words_specs.play_of (map string_bytes words.now) ≡ Some (job_seen (Job.Play job))) }
    ensures sessions { MatchOption result (words_specs.sessions_of (map string_bytes words.now) ≡ None) (λ job. words_specs.sessions_of (map string_bytes words.now) ≡ Some (job_seen (Job.Sessions job))) }
{
    let [book, base, queries, script] = words else {
        return None;
    };
    Some(PlayJob {
        book: name_of(book)?,
        base: name_of(base)?,
        queries: name_of(queries)?,
        script: name_of(script)?,
    })
}

/// The job of the words behind `play`.
fn play_of(words: &[String]) -> Option<Job<'_>>
    ensures { MatchOption result (words_specs.play_of (map string_bytes words.now) ≡ None) (λ job. words_specs.play_of (map string_bytes words.now) ≡ Some (job_seen job)) }
{
    Some(Job::Play(play_files_of(words)?))
}

/// The job of the words behind `sample`.
fn sample_of(words: &[String]) -> Option<Job<'_>>
    ensures { MatchOption result (words_specs.sample_of (map string_bytes words.now) ≡ None) (λ job. words_specs.sample_of (map string_bytes words.now) ≡ Some (job_seen job)) }
{
    let [start, rows] = words else {
        return None;
    };
    let start = number_of(start, 0, 2_147_483_647)?;
    let rows = number_of(rows, 1, 100_000)?;
    Some(Job::Sample(SampleJob { start, rows }))
}

/// The job of the words behind `info`.
fn info_of(words: &[String]) -> Option<Job<'_>>
    ensures { MatchOption result (words_specs.info_of (map string_bytes words.now) ≡ None) (λ job. words_specs.info_of (map string_bytes words.now) ≡ Some (job_seen job)) }
{
    let [index] = words else {
        return None;
    };
    Some(Job::Info(name_of(index)?))
}

/// The job of the words behind `build`.
fn build_of(words: &[String]) -> Option<Job<'_>>
    ensures { MatchOption result (words_specs.build_of (map string_bytes words.now) ≡ None) (λ job. words_specs.build_of (map string_bytes words.now) ≡ Some (job_seen job)) }
{
    let [book, base, index] = words else {
        return None;
    };
    let book = name_of(book)?;
    let base = name_of(base)?;
    let index = name_of(index)?;
    if index == book || index == base {
        return None;
    }
    Some(Job::Build(BuildJob { book, base, index }))
}

/// The job of the words behind `upgrade`.
fn upgrade_of(words: &[String]) -> Option<Job<'_>>
    ensures { MatchOption result (words_specs.upgrade_of (map string_bytes words.now) ≡ None) (λ job. words_specs.upgrade_of (map string_bytes words.now) ≡ Some (job_seen job)) }
{
    let [old, new] = words else {
        return None;
    };
    let old = name_of(old)?;
    let new = name_of(new)?;
    if new == old {
        return None;
    }
    Some(Job::Upgrade(UpgradeJob { old, new }))
}

/// The job of the words behind `search`.
fn search_of(words: &[String]) -> Option<Job<'_>>
    ensures { MatchOption result (words_specs.search_of (map string_bytes words.now) ≡ None) (λ job. words_specs.search_of (map string_bytes words.now) ≡ Some (job_seen job)) }
{
    let [index, queries, k, wanted, out] = words else {
        return None;
    };
    let index = name_of(index)?;
    let queries = name_of(queries)?;
    let out = name_of(out)?;
    if out == index || out == queries {
        return None;
    }
    let k = number_of(k, 1, 1000)?;
    let wanted = number_of(wanted, 1, 4_194_304)?;
    Some(Job::Search(SearchJob {
        index,
        queries,
        k,
        wanted,
        out,
    }))
}

/// The job of the words behind `radius`.
fn radius_of(words: &[String]) -> Option<Job<'_>>
    ensures { MatchOption result (words_specs.radius_of (map string_bytes words.now) ≡ None) (λ job. words_specs.radius_of (map string_bytes words.now) ≡ Some (job_seen job)) }
{
    let [index, queries, radius, wanted] = words else {
        return None;
    };
    Some(Job::Radius(RadiusJob {
        index: name_of(index)?,
        queries: name_of(queries)?,
        radius: number(radius.as_str().as_bytes())?,
        wanted: number_of(wanted, 1, 4_194_304)?,
    }))
}

/// The job of the words behind `recall`.
fn recall_of(words: &[String]) -> Option<Job<'_>>
    ensures { MatchOption result (words_specs.recall_of (map string_bytes words.now) ≡ None) (λ job. words_specs.recall_of (map string_bytes words.now) ≡ Some (job_seen job)) }
{
    let [found, truth, k] = words else {
        return None;
    };
    Some(Job::Recall(RecallJob {
        found: name_of(found)?,
        truth: name_of(truth)?,
        k: number_of(k, 1, 1000)?,
    }))
}

/// The job of the words behind `residual`.
fn residual_of(words: &[String]) -> Option<Job<'_>>
    ensures { MatchOption result (words_specs.residual_of (map string_bytes words.now) ≡ None) (λ job. words_specs.residual_of (map string_bytes words.now) ≡ Some (job_seen job)) }
{
    let [book, base, queries, script, cache] = words else {
        return None;
    };
    let book = name_of(book)?;
    let base = name_of(base)?;
    let queries = name_of(queries)?;
    let script = name_of(script)?;
    let play = PlayJob {
        book,
        base,
        queries,
        script,
    };
    let cache = number_of(cache, 0, 2048)?;
    Some(Job::Residual(ResidualJob { play, cache }))
}

/// The job of the words behind `exact`.
fn exact_of(words: &[String]) -> Option<Job<'_>>
    ensures { MatchOption result (words_specs.exact_of (map string_bytes words.now) ≡ None) (λ job. words_specs.exact_of (map string_bytes words.now) ≡ Some (job_seen job)) }
{
    let [base, queries, k, out] = words else {
        return None;
    };
    let base = name_of(base)?;
    let queries = name_of(queries)?;
    let out = name_of(out)?;
    if out == base || out == queries {
        return None;
    }
    let k = number_of(k, 1, 1000)?;
    Some(Job::Exact(ExactJob {
        base,
        queries,
        k,
        out,
    }))
}

/// The job of the words behind `rerank`.
fn rerank_of(words: &[String]) -> Option<Job<'_>>
    ensures { MatchOption result (words_specs.rerank_of (map string_bytes words.now) ≡ None) (λ job. words_specs.rerank_of (map string_bytes words.now) ≡ Some (job_seen job)) }
{
    let [index, base, queries, found, k, wanted, out] = words else {
        return None;
    };
    let index = name_of(index)?;
    let base = name_of(base)?;
    let queries = name_of(queries)?;
    let out = name_of(out)?;
    if out == index || out == base || out == queries {
        return None;
    }
    let found = number_of(found, 1, 1000)?;
    let k = number_of(k, 1, found)?;
    let wanted = number_of(wanted, 1, 4_194_304)?;
    Some(Job::Rerank(RerankJob {
        index,
        base,
        queries,
        found,
        k,
        wanted,
        out,
    }))
}

/// The job of the words behind `allowed`.
fn allowed_of(words: &[String]) -> Option<Job<'_>>
    ensures { MatchOption result (words_specs.allowed_of (map string_bytes words.now) ≡ None) (λ job. words_specs.allowed_of (map string_bytes words.now) ≡ Some (job_seen job)) }
{
    let [index, queries, k, wanted, allow, out] = words else {
        return None;
    };
    let index = name_of(index)?;
    let queries = name_of(queries)?;
    let allow = name_of(allow)?;
    let out = name_of(out)?;
    if out == index || out == queries || out == allow {
        return None;
    }
    let k = number_of(k, 1, 1000)?;
    let wanted = number_of(wanted, 1, 4_194_304)?;
    Some(Job::Allowed(AllowedJob {
        index,
        queries,
        k,
        wanted,
        allow,
        out,
    }))
}

/// The job of the words behind `sessions`.
fn sessions_of(words: &[String]) -> Option<Job<'_>>
    ensures { MatchOption result (words_specs.sessions_of (map string_bytes words.now) ≡ None) (λ job. words_specs.sessions_of (map string_bytes words.now) ≡ Some (job_seen job)) }
{
    Some(Job::Sessions(play_files_of(words)?))
}

/// The job that words ask for, which are a command line without the program's name. None is a wrong usage.
#[tactic(auto, unfolding(crate::specs::Words::job_of))]
pub fn job_of(words: &[String]) -> Option<Job<'_>>
    ensures { MatchOption result (words_specs.job_of (map string_bytes words.now) ≡ None) (λ job. words_specs.job_of (map string_bytes words.now) ≡ Some (job_seen job)) }
{
    let (verb, words) = words.split_first()?;
    match verb.as_str() {
        "play" => play_of(words),
        "sample" => sample_of(words),
        "info" => info_of(words),
        "build" => build_of(words),
        "upgrade" => upgrade_of(words),
        "search" => search_of(words),
        "radius" => radius_of(words),
        "recall" => recall_of(words),
        "residual" => residual_of(words),
        "exact" => exact_of(words),
        "rerank" => rerank_of(words),
        "allowed" => allowed_of(words),
        "sessions" => sessions_of(words),
        _ => None,
    }
}
