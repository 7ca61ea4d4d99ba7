//! The parameters of modules.
ghost use Rattle.std.specs.Prelude.{◌≡◌, ◌∷◌, ◌++◌, [], map, option_map, IfOk};
ghost use Rattle.serde_json.specs.View.{view};
ghost use Rattle.module_settings.specs.Modules.{most_of};
ghost use Rattle.module_settings.specs.Parameters.{own, parameters_of, setting_of, shared};
ghost use Rattle.module_settings.specs.Rows.{otherwise_of, parameter_of};

use crate::taken::taken_as;
use crate::texts::text_of;
use crate::{Form, Instances, ModuleWord, Setting, Words, facts_of};
use base_types::{OutOfMemory, TextList};
use event_model::Fields;
use serde_json::Value as Tree;
use std::alloc::Global;

/// What a parameter is where it isn't given.
#[derive(Clone, Copy, Debug)]
pub enum Otherwise {
    /// It must be given.
    Required,
    Unset,
    Whole(u64),
    Switch(bool),
    Line(&'static str),
    /// These two texts.
    Lines(&'static str, &'static str),
    /// No fields.
    NoDefaults,
}

/// A parameter, by its name: what it may be, and what it is where it isn't given.
#[derive(Clone, Copy, Debug)]
pub struct Parameter {
    pub name: &'static str,
    pub form: Form,
    pub otherwise: Otherwise,
}

const FILE: Parameter = Parameter {
    name: "file",
    form: Form::FileName,
    otherwise: Otherwise::Required,
};

const DEFAULT_FIELDS: Parameter = Parameter {
    name: "default_fields",
    form: Form::FieldObject,
    otherwise: Otherwise::NoDefaults,
};

const RETRIES: Parameter = Parameter {
    name: "error_max_retries",
    form: Form::Number {
        least: 0,
        most: 100,
    },
    otherwise: Otherwise::Whole(3),
};

const PROCEDURE: Parameter = Parameter {
    name: "error_procedure",
    form: Form::Word(Words::Procedure),
    otherwise: Otherwise::Line("pass"),
};

const DELAY: Parameter = Parameter {
    name: "error_retry_delay",
    form: Form::Number {
        least: 0,
        most: 86_400,
    },
    otherwise: Otherwise::Whole(15),
};

const INSTANCES: Parameter = Parameter {
    name: "instances_threads",
    form: Form::Number { least: 1, most: 16 },
    otherwise: Otherwise::Whole(1),
};

const ONE_INSTANCE: Parameter = Parameter {
    name: "instances_threads",
    form: Form::Number { least: 1, most: 1 },
    otherwise: Otherwise::Whole(1),
};

static SHARED: [Parameter; 4] = [RETRIES, PROCEDURE, DELAY, INSTANCES];

static OF_ONE_INSTANCE: [Parameter; 4] = [RETRIES, PROCEDURE, DELAY, ONE_INSTANCE];

static COLLECTOR: [Parameter; 5] = [
    Parameter {
        name: "chunk_replicate_header",
        form: Form::Flag,
        otherwise: Otherwise::Switch(false),
    },
    Parameter {
        name: "chunk_size",
        form: Form::Number {
            least: 1,
            most: 1_048_576,
        },
        otherwise: Otherwise::Whole(65_536),
    },
    FILE,
    Parameter {
        name: "name",
        form: Form::Stripped,
        otherwise: Otherwise::Required,
    },
    Parameter {
        name: "provider",
        form: Form::Stripped,
        otherwise: Otherwise::Unset,
    },
];

static CSV: [Parameter; 5] = [
    Parameter {
        name: "columns",
        form: Form::Texts,
        otherwise: Otherwise::Required,
    },
    DEFAULT_FIELDS,
    Parameter {
        name: "delimiter",
        form: Form::Byte,
        otherwise: Otherwise::Whole(44),
    },
    Parameter {
        name: "skip_header",
        form: Form::Flag,
        otherwise: Otherwise::Switch(false),
    },
    Parameter {
        name: "time_format",
        form: Form::Word(Words::TimeFormat),
        otherwise: Otherwise::Unset,
    },
];

static JSON: [Parameter; 2] = [
    DEFAULT_FIELDS,
    Parameter {
        name: "style",
        form: Form::Word(Words::Style),
        otherwise: Otherwise::Line("lines"),
    },
];

static SIEVE: [Parameter; 1] = [FILE];

static DEDUP: [Parameter; 4] = [
    Parameter {
        name: "cache_max",
        form: Form::Number {
            least: 1,
            most: 200_000,
        },
        otherwise: Otherwise::Whole(100_000),
    },
    Parameter {
        name: "filter_keys",
        form: Form::Texts,
        otherwise: Otherwise::Lines("raw", "time.observation"),
    },
    Parameter {
        name: "filter_type",
        form: Form::Word(Words::Filter),
        otherwise: Otherwise::Line("deny"),
    },
    Parameter {
        name: "ttl",
        form: Form::Number {
            least: 1,
            most: 31_536_000,
        },
        otherwise: Otherwise::Whole(86_400),
    },
];

static PREFIX: [Parameter; 2] = [
    FILE,
    Parameter {
        name: "overwrite",
        form: Form::Flag,
        otherwise: Otherwise::Switch(false),
    },
];

static MODIFY: [Parameter; 3] = [
    FILE,
    Parameter {
        name: "maximum_matches",
        form: Form::Number {
            least: 0,
            most: 10_000,
        },
        otherwise: Otherwise::Whole(0),
    },
    Parameter {
        name: "overwrite",
        form: Form::Flag,
        otherwise: Otherwise::Switch(true),
    },
];

static NONE: [Parameter; 0] = [];

/// The parameters of all bots, of which so many instances may run.
pub fn shared_parameters(instances: Instances) -> &'static [Parameter]
    ensures { map parameter_of result.now ≡ shared (most_of instances) }
{
    match instances {
        Instances::One => &OF_ONE_INSTANCE,
        Instances::Several => &SHARED,
    }
}

/// The parameters of a module alone.
pub fn own_parameters(word: ModuleWord) -> &'static [Parameter]
    ensures { map parameter_of result.now ≡ own word }
{
    match word {
        ModuleWord::Collector => &COLLECTOR,
        ModuleWord::Csv => &CSV,
        ModuleWord::Json => &JSON,
        ModuleWord::Sieve => &SIEVE,
        ModuleWord::Dedup => &DEDUP,
        ModuleWord::Prefix => &PREFIX,
        ModuleWord::Modify => &MODIFY,
        ModuleWord::Taxonomy | ModuleWord::Output => &NONE,
    }
}

/// The parameters of all bots, and those of the module, where it is known.
pub fn parameters_of(word: Option<ModuleWord>) -> (&'static [Parameter], &'static [Parameter])
    ensures { map parameter_of result.0.now ++ map parameter_of result.1.now ≡ parameters_of word }
{
    match word {
        Some(word) => (
            shared_parameters(facts_of(word).instances),
            own_parameters(word),
        ),
        None => (shared_parameters(Instances::Several), &NONE),
    }
}

fn two_lines(alloc: Global, first: &str, second: &str) -> Result<TextList, OutOfMemory>
    ensures { IfOk result (λ lines. lines ≡ first.now ∷ second.now ∷ []) }
{
    let mut lines = Vec::with_capacity(alloc, 2)?;
    lines.push(text_of(alloc, first)?)?;
    lines.push(text_of(alloc, second)?)?;
    Ok(TextList::from(lines))
}

// What a parameter is that isn't given.
fn default_of(alloc: Global, otherwise: Otherwise) -> Result<Option<Setting>, OutOfMemory>
    ensures { IfOk result (λ setting. setting ≡ otherwise_of otherwise) }
{
    match otherwise {
        Otherwise::Required => Ok(None),
        Otherwise::Unset => Ok(Some(Setting::Unset)),
        Otherwise::Whole(n) => Ok(Some(Setting::Whole(n))),
        Otherwise::Switch(flag) => Ok(Some(Setting::Switch(flag))),
        Otherwise::Line(word) => Ok(Some(Setting::Line(text_of(alloc, word)?))),
        Otherwise::Lines(first, second) => {
            Ok(Some(Setting::Lines(two_lines(alloc, first, second)?)))
        }
        Otherwise::NoDefaults => Ok(Some(Setting::Defaults(Fields::new(alloc)))),
    }
}

/// What a parameter is taken as by the value that is given; `None` where that is of another form, or where the parameter
/// must be given and isn't.
pub fn setting_of(
    alloc: Global,
    parameter: &Parameter,
    given: Option<&Tree>,
) -> Result<Option<Setting>, OutOfMemory>
    ensures { IfOk result (λ setting. setting ≡ setting_of (parameter_of parameter.now) (option_map (λ tree. view tree.now) given.entry)) }
{
    match given {
        Some(tree) => taken_as(alloc, parameter.form, tree),
        None => default_of(alloc, parameter.otherwise),
    }
}
