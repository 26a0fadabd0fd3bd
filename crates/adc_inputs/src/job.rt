//! What a command line may ask for.
ghost use Rattle.std.specs.Prelude.{◌≢◌, ◌≤◌};

/// The files of `play`.
#[derive(Clone, Copy)]
pub struct PlayJob<'a> {
    pub book: &'a str,
    pub base: &'a str,
    pub queries: &'a str,
    pub script: &'a str,
}

/// The number that `sample` begins its stream with, and how many rows it makes.
#[derive(Clone, Copy)]
pub struct SampleJob {
    pub start: u32,
    pub rows: u32,
    pub ghost some: { 1 ≤ rows },
    pub ghost few: { rows ≤ 100000 },
}

/// The files of `build`: a book, a base, and the index that is written.
#[derive(Clone, Copy)]
pub struct BuildJob<'a> {
    pub book: &'a str,
    pub base: &'a str,
    pub index: &'a str,
}

/// The index that `upgrade` reads, and the one that it writes.
#[derive(Clone, Copy)]
pub struct UpgradeJob<'a> {
    pub old: &'a str,
    pub new: &'a str,
}

/// The index and the queries of `search`, how many of the nearest it writes and how many rows it wants, and the file that is
/// written.
#[derive(Clone, Copy)]
pub struct SearchJob<'a> {
    pub index: &'a str,
    pub queries: &'a str,
    pub k: u32,
    pub wanted: u32,
    pub out: &'a str,
    pub ghost k_some: { 1 ≤ k },
    pub ghost k_few: { k ≤ 1000 },
    pub ghost wanted_some: { 1 ≤ wanted },
    pub ghost wanted_few: { wanted ≤ 4194304 },
    pub ghost apart: { queries.now ≢ out.now },
}

/// The index and the queries of `radius`, the squared distance, and how many rows are wanted.
#[derive(Clone, Copy)]
pub struct RadiusJob<'a> {
    pub index: &'a str,
    pub queries: &'a str,
    pub radius: u64,
    pub wanted: u32,
    pub ghost some: { 1 ≤ wanted },
    pub ghost few: { wanted ≤ 4194304 },
}

/// The answers of `recall`, their true neighbours, and how many of each answer count.
#[derive(Clone, Copy)]
pub struct RecallJob<'a> {
    pub found: &'a str,
    pub truth: &'a str,
    pub k: u32,
}

/// The files of `residual`, which are those of a play, and for how many tables of halves there is room beside the two in use.
#[derive(Clone, Copy)]
pub struct ResidualJob<'a> {
    pub play: PlayJob<'a>,
    pub cache: u32,
    pub ghost few: { cache ≤ 2048 },
}

/// The base and the queries of `exact`, how many of the nearest rows it writes, and the file that is written.
#[derive(Clone, Copy)]
pub struct ExactJob<'a> {
    pub base: &'a str,
    pub queries: &'a str,
    pub k: u32,
    pub out: &'a str,
    pub ghost some: { 1 ≤ k },
    pub ghost few: { k ≤ 1000 },
    pub ghost base_apart: { base.now ≢ out.now },
    pub ghost queries_apart: { queries.now ≢ out.now },
}

/// The index, the base and the queries of `rerank`, how many of the nearest it looks for, how many of these it writes and how many
/// rows it wants, and the file that is written.
#[derive(Clone, Copy)]
pub struct RerankJob<'a> {
    pub index: &'a str,
    pub base: &'a str,
    pub queries: &'a str,
    pub found: u32,
    pub k: u32,
    pub wanted: u32,
    pub out: &'a str,
    pub ghost found_some: { 1 ≤ found },
    pub ghost found_few: { found ≤ 1000 },
    pub ghost k_some: { 1 ≤ k },
    pub ghost k_few: { k ≤ found },
    pub ghost wanted_some: { 1 ≤ wanted },
    pub ghost wanted_few: { wanted ≤ 4194304 },
    pub ghost base_apart: { base.now ≢ out.now },
    pub ghost queries_apart: { queries.now ≢ out.now },
}

/// The index and the queries of `allowed`, how many of the nearest it writes and how many rows it wants, the list of ids that it
/// looks among, and the file that is written.
#[derive(Clone, Copy)]
pub struct AllowedJob<'a> {
    pub index: &'a str,
    pub queries: &'a str,
    pub k: u32,
    pub wanted: u32,
    pub allow: &'a str,
    pub out: &'a str,
    pub ghost k_some: { 1 ≤ k },
    pub ghost k_few: { k ≤ 1000 },
    pub ghost wanted_some: { 1 ≤ wanted },
    pub ghost wanted_few: { wanted ≤ 4194304 },
    pub ghost apart: { queries.now ≢ out.now },
}

/// A command with the names of its files and its numbers.
#[derive(Clone, Copy)]
pub enum Job<'a> {
    /// Plays a script over an engine without rows.
    Play(PlayJob<'a>),
    /// Makes a book, rows and queries, and prints what the queries find.
    Sample(SampleJob),
    /// Prints the numbers of an index.
    Info(&'a str),
    /// Writes the index of a base.
    Build(BuildJob<'a>),
    /// Writes an index of either version as version 2.
    Upgrade(UpgradeJob<'a>),
    /// Asks each query of an index, and writes the ids of the answers.
    Search(SearchJob<'a>),
    /// Prints all visited rows of an index within a squared distance of each query.
    Radius(RadiusJob<'a>),
    /// Prints how many answers have the nearest neighbour.
    Recall(RecallJob<'a>),
    /// Plays a script over an engine of residual codes without rows.
    Residual(ResidualJob<'a>),
    /// Writes the numbers of the nearest rows of a base for each query.
    Exact(ExactJob<'a>),
    /// Asks each query of an index, and writes the nearest of the ids of its answer by the distances to their base rows.
    Rerank(RerankJob<'a>),
    /// Asks each query of an index among the ids of a list, and writes the ids of the answers.
    Allowed(AllowedJob<'a>),
    /// Plays a script with sessions over an engine without rows.
    Sessions(PlayJob<'a>),
}
