// What holds of two vCPUs that differ in labelled places alone, and of their runs.
ghost use Rattle.secret_labels.specs.Rules.{LabelRules};
ghost use Rattle.secret_labels.specs.TwoWorlds.{TwoWorlds, UpToUse};
ghost use Rattle.secret_labels.specs.Worlds.{OneAnswer, OneChange, OneException, OneStep};

/// One change keeps two vCPUs alike where no label stands.
pub fn one_change()
    ensures law { OneChange }
{}

/// One step of two vCPUs that agree where no label stands, over the whole instruction table: where no label
/// is used, both go on, ask for the same event, or end alike, and agree still where no label stands.
pub fn one_step()
    ensures law { OneStep }
{}

/// The same of the reply to an event, whichever it is.
pub fn one_answer()
    ensures law { OneAnswer }
{}

/// The same of an exception's delivery.
pub fn one_exception()
    ensures law { OneException }
{}

/// Whole runs against any host: where the verdict is Clean, each opening RAM that differs in the secret alone
/// gives the same trace, end and steps.
pub fn two_worlds()
    ensures law { TwoWorlds }
{}

/// Where a label is used, each of them gives the same trace up to the use.
pub fn up_to_use()
    ensures law { UpToUse }
{}

/// The label rules: for each instruction, event and exception what is used, and where labels stand then.
pub fn label_rules()
    ensures law { LabelRules }
{}
