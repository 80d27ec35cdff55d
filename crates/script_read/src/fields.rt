//! The fields of each command and of each operation, listed once by their variants, for the printer and for the limits.

/// Evaluates an expression over the fields of a value: for each variant the kinds and names of its
/// fields are listed, and last what is evaluated for the other variants.
macro_rules! by_fields {
    (
        $value:ident, $fields:ident => $then:expr;
        $($type:ident::$variant:ident: [$($kind:ident $field:ident),+],)+
        _: $others:expr
    ) => {
        match $value {
            $($type::$variant { $($field,)+ .. } => {
                let $fields = [$(Field::$kind(*$field)),+];
                $then
            })+
            _ => $others,
        }
    };
}

/// Evaluates an expression over the fields of a command, up to those that are lists, and another for
/// commands that write files or have no fields.
macro_rules! by_command {
    ($command:ident, $fields:ident => $then:expr, _ => $others:expr) => {
        by_fields!($command, $fields => $then;
            Command::Buffer: [Name name, Format format, Rect rect],
            Command::Sub: [Name name, Name parent, Rect rect],
            Command::Dup: [Name name, Name from],
            Command::Load: [Name name, Rect rect, File file],
            Command::Fill: [Name name, Rect rect],
            Command::Copy: [Name from, Name to, Rect rect, Integer dx, Integer dy],
            Command::Node: [Name name],
            Command::Drop: [Name name],
            _: $others)
    };
}

/// Evaluates an expression over the fields of a command that writes files, and another for all other
/// commands.
macro_rules! by_output {
    ($command:ident, $fields:ident => $then:expr, _ => $others:expr) => {
        by_fields!($command, $fields => $then;
            Command::Render: [Name name, Natural level, Rect rect, File file],
            Command::Grab: [Name name, Natural level, Policy abyss, Rect rect, File file],
            Command::Watch: [Name name, Rect rect, Natural viewers, Natural frames, File prefix],
            _: $others)
    };
}

/// Evaluates an expression over the arguments of an operation, but samples, and another for
/// operations that have none.
macro_rules! by_operation {
    ($op:ident, $fields:ident => $then:expr, _ => $others:expr) => {
        by_fields!($op, $fields => $then;
            IntOp::Color: [Format format, Rect rect],
            IntOp::Checker: [Format format, Rect rect, Natural size, Natural v1, Natural v2],
            IntOp::Convert: [Format format],
            IntOp::Threshold: [Natural at],
            IntOp::Gain: [Natural num, Natural den],
            IntOp::Translate: [Integer dx, Integer dy],
            IntOp::Crop: [Rect rect],
            IntOp::Flip: [Sideways sideways],
            IntOp::BoxMean: [Natural radius, Policy abyss],
            IntOp::Dilate: [Natural radius, Policy abyss],
            IntOp::Erode: [Natural radius, Policy abyss],
            _: $others)
    };
}

pub(crate) use by_command;
pub(crate) use by_fields;
pub(crate) use by_operation;
pub(crate) use by_output;
