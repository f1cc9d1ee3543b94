//! What holds of readings.

ghost use Rattle.mb_files.specs.Laws.{ComesAsTold, ComesThen, NamedAreTold, RefusedThen};

/// What is known of a reading is what it comes to, and readings follow one another.
pub fn readings_follow<A, B>()
    ensures known { ComesAsTold A }
    ensures named { NamedAreTold A }
    ensures then { ComesThen A B }
    ensures refused { RefusedThen A B }
{}
