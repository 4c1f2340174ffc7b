//! What a command line asks for.
use line_filter::Part;
use thiserror::Error;

/// The work that the program is to do.
#[derive(Clone, Copy, Debug, PartialEq, Eq)]
pub enum Verb {
    Check,
    Explain,
    Filter,
}

/// A command line that was read. The texts are the words themselves: names of files, of a type, and the filter's text.
#[derive(Debug, Drop)]
pub struct Plan<'a> {
    pub verb: Verb,
    pub schema: &'a str,
    pub named: &'a str,
    pub filter: Option<&'a str>,
    pub query: Option<&'a str>,
    pub rows: Option<&'a str>,
    pub now: Option<&'a str>,
    pub collection: bool,
}

/// When sentences for people follow the lines of faults.
#[derive(Clone, Copy, Debug, PartialEq, Eq)]
pub enum Hints {
    /// Where standard error is a terminal.
    Auto,
    Always,
    Never,
}

/// In which form a run reports.
#[derive(Clone, Copy, Debug, PartialEq, Eq)]
pub enum Format {
    /// Lines of text.
    Text,
    /// One JSON object a fault, and for an accepted filter.
    Json,
}

/// What a command line asks for.
#[derive(Debug, Drop)]
pub enum Request<'a> {
    /// That a plan is carried out.
    Run(RunRequest<'a>),
    /// That the types of a schema are listed.
    Types(TypesRequest<'a>),
}

/// A plan, and how a run of it reports.
#[derive(Debug, Drop)]
pub struct RunRequest<'a> {
    pub plan: Plan<'a>,
    pub hints: Hints,
    pub format: Format,
    /// All files of rows, in their order; of these the plan has the first.
    pub rows: Vec<&'a str>,
    /// Whether the rows are counted.
    pub count: bool,
    /// Whether rows at fault are passed over.
    pub skip_faulty: bool,
    /// Whether the kept entities of a collection are written, instead of their indexes.
    pub items: bool,
    /// The text of the number of the row that is explained.
    pub row: Option<&'a str>,
    /// The part of its one file of rows that is read, if not all of it.
    pub part: Option<Part>,
}

/// A schema whose types are listed, and how.
#[derive(Debug, Drop)]
pub struct TypesRequest<'a> {
    /// The name of its file.
    pub schema: &'a str,
    pub hints: Hints,
    pub format: Format,
}

/// Why a command line has no plan. `Clap`'s text ends with a line feed, the others have none.
#[derive(Debug, Drop, Error)]
pub enum PlanFault {
    /// `clap` refuses the words, or was asked for its help or the version, which is its text then.
    #[error(transparent)]
    Clap(clap::Error),
    /// Not exactly one of filter and query is given, or the subcommand has neither.
    #[error("give one of filter and query")]
    OneOf,
    /// An allocation failed.
    #[error("memory")]
    Memory,
}

/// Why a command line is no request. `Plan`'s text is that of its fault.
#[derive(Debug, Drop, Error)]
pub enum RequestFault {
    #[error(transparent)]
    Plan(PlanFault),
    /// The text of `--hints` is another.
    #[error("hints is none of auto, always and never")]
    Hints,
    /// The text of `--format` is another.
    #[error("format is none of text and json")]
    Format,
    /// The rows are a collection, and are to be counted or passed over as lines are.
    #[error("count and skip-faulty are for lines, not for a collection")]
    Collection,
    /// The entities of a collection are to be written, but the rows are not one.
    #[error("items is for a collection")]
    Items,
    /// The text of `--part` is no part.
    #[error("part is not K/N with K from 1 to N")]
    Part,
    /// A part is asked for of rows that are not the lines of one file.
    #[error("part is for the lines of one file of rows")]
    PartOfRows,
}
