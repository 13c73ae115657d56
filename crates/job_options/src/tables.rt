//! The tables of an options text, each as the list of its keys in their order (docs/FORMATS.md,
//! "Options").
use crate::key::{Absent, Key};
use crate::rules::{AnyValue, OneValue, TableOf};
use hive_model::{MOST_HANDLES, MOST_INSTANCES, MOST_RESOURCES, MOST_SEQUENCES, MOST_UNITS};
use text_model::{FIRST_VERSION, MOST_ALGORITHMS_OF_VERSION_1, MOST_MEMBERS};

// Keys of several tables.

pub const NAME: Key<OneValue> = Key {
    name: "name",
    rule: OneValue::Name,
    absent: Absent::Required,
};

pub const KIND: Key<OneValue> = Key {
    name: "kind",
    rule: OneValue::Word(&["num", "list"]),
    absent: Absent::Required,
};

// Raw handles.

pub const RAW_KEYS: &[Key<OneValue>] = &[NAME, KIND];

// Resources.

pub const UNITS: Key<OneValue> = Key {
    name: "units",
    rule: OneValue::Number {
        least: 1,
        most: MOST_UNITS,
    },
    absent: Absent::Number(1),
};

pub const RESOURCE_KEYS: &[Key<OneValue>] = &[NAME, UNITS];

// Outputs.

pub const EXPRESSION: Key<OneValue> = Key {
    name: "value",
    rule: OneValue::AnyText,
    absent: Absent::Required,
};

pub const OUTPUT_KEYS: &[Key<OneValue>] = &[NAME, KIND, EXPRESSION];

// Algorithms. Their name is that of sequences too.

pub const FULL_NAME: Key<AnyValue> = Key {
    name: "name",
    rule: AnyValue::One(OneValue::Name),
    absent: Absent::Required,
};

pub const CARDINALITY: Key<AnyValue> = Key {
    name: "cardinality",
    rule: AnyValue::One(OneValue::Number {
        least: 0,
        most: MOST_INSTANCES,
    }),
    absent: Absent::Number(1),
};

pub const INPUTS: Key<AnyValue> = Key {
    name: "inputs",
    rule: AnyValue::Array {
        most: MOST_HANDLES,
        element: OneValue::Name,
    },
    absent: Absent::Empty,
};

pub const RESOURCES: Key<AnyValue> = Key {
    name: "resources",
    rule: AnyValue::Array {
        most: MOST_RESOURCES,
        element: OneValue::Name,
    },
    absent: Absent::Empty,
};

pub const OUTPUT: Key<AnyValue> = Key {
    name: "output",
    rule: AnyValue::Tables {
        most: MOST_HANDLES,
        element: TableOf { keys: OUTPUT_KEYS },
    },
    absent: Absent::Empty,
};

pub const FILTER: Key<AnyValue> = Key {
    name: "filter",
    rule: AnyValue::One(OneValue::AnyText),
    absent: Absent::Optional,
};

pub const ALGORITHM_KEYS: &[Key<AnyValue>] = &[
    FULL_NAME,
    CARDINALITY,
    INPUTS,
    RESOURCES,
    OUTPUT,
    FILTER,
];

// Sequences.

pub const MEMBERS: Key<AnyValue> = Key {
    name: "members",
    rule: AnyValue::Array {
        most: MOST_MEMBERS,
        element: OneValue::Name,
    },
    absent: Absent::Empty,
};

pub const MODE_OR: Key<AnyValue> = Key {
    name: "mode_or",
    rule: AnyValue::One(OneValue::Truth),
    absent: Absent::Truth(false),
};

pub const SHORT_CIRCUIT: Key<AnyValue> = Key {
    name: "short_circuit",
    rule: AnyValue::One(OneValue::Truth),
    absent: Absent::Truth(true),
};

pub const SEQUENTIAL: Key<AnyValue> = Key {
    name: "sequential",
    rule: AnyValue::One(OneValue::Truth),
    absent: Absent::Truth(false),
};

pub const INVERT: Key<AnyValue> = Key {
    name: "invert",
    rule: AnyValue::One(OneValue::Truth),
    absent: Absent::Truth(false),
};

pub const IGNORE_FILTER: Key<AnyValue> = Key {
    name: "ignore_filter",
    rule: AnyValue::One(OneValue::Truth),
    absent: Absent::Truth(false),
};

/// In the first version no sequence may have it.
pub const CUT: Key<AnyValue> = Key {
    name: "cut",
    rule: AnyValue::One(OneValue::Truth),
    absent: Absent::Truth(false),
};

pub const SEQUENCE_KEYS: &[Key<AnyValue>] = &[
    FULL_NAME,
    MEMBERS,
    MODE_OR,
    SHORT_CIRCUIT,
    SEQUENTIAL,
    INVERT,
    IGNORE_FILTER,
];

// The top level.

pub const VERSION: Key<AnyValue> = Key {
    name: "version",
    rule: AnyValue::One(OneValue::Number {
        least: FIRST_VERSION,
        most: FIRST_VERSION,
    }),
    absent: Absent::Number(FIRST_VERSION),
};

pub const TOP: Key<AnyValue> = Key {
    name: "top",
    rule: AnyValue::One(OneValue::Name),
    absent: Absent::Required,
};

pub const RAW_TABLES: Key<AnyValue> = Key {
    name: "raw",
    rule: AnyValue::Array {
        most: MOST_HANDLES,
        element: OneValue::Table,
    },
    absent: Absent::Empty,
};

pub const RESOURCE_TABLES: Key<AnyValue> = Key {
    name: "resource",
    rule: AnyValue::Array {
        most: MOST_RESOURCES,
        element: OneValue::Table,
    },
    absent: Absent::Empty,
};

pub const ALGORITHM_TABLES: Key<AnyValue> = Key {
    name: "algorithm",
    rule: AnyValue::Array {
        most: MOST_ALGORITHMS_OF_VERSION_1,
        element: OneValue::Table,
    },
    absent: Absent::Empty,
};

pub const SEQUENCE_TABLES: Key<AnyValue> = Key {
    name: "sequence",
    rule: AnyValue::Array {
        most: MOST_SEQUENCES,
        element: OneValue::Table,
    },
    absent: Absent::Empty,
};

pub const TOP_KEYS: &[Key<AnyValue>] = &[
    VERSION,
    TOP,
    RAW_TABLES,
    RESOURCE_TABLES,
    ALGORITHM_TABLES,
    SEQUENCE_TABLES,
];
