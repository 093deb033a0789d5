// The rules that scripts give are texts, by their types.
ghost use Rattle.std.specs.Prelude.{◌≡◌, true};
ghost use Rattle.std.specs.List.{list_all};
ghost use Rattle.std.specs.Str.{is_utf8};
ghost use Rattle.queue_rows.specs.Within.{if_some};
ghost use Rattle.run_spellings.specs.SpellableRun.{asks_text_rule, has_text_rule, have_text_rules};

use payload_records::{List, Shared, Text};
use queue_rows::{Admin, SessionScript, Statement};

fn is_text(rule: &Option<Text>)
    ensures { if_some is_utf8 rule.now ≡ true }
{
    if let Some(text) = rule {
        let _bytes = text.as_str();
    }
}

fn asks_text_rule(ask: &Admin)
    ensures { asks_text_rule ask.now ≡ true }
{
    if let Admin::AddSubscriber { rule, .. } = ask {
        is_text(rule);
    }
}

fn has_text_rule(statement: &Statement)
    ensures { has_text_rule statement.now ≡ true }
{
    if let Statement::Admin(ask) = statement {
        asks_text_rule(ask);
    }
}

#[tactic(auto, using(crate::proofs::Walking::all_goes_on))]
fn have_text_rules(statements: &List<Shared<Statement>>)
    ensures { list_all has_text_rule statements.now ≡ true }
{
    for statement in statements {
        has_text_rule(statement);
    }
}

/// The rules that scripts give to subscribers are UTF-8, as each text is by its type. It only looks at them.
#[tactic(auto, using(crate::proofs::Walking::all_goes_on))]
pub fn rules_are_texts(scripts: &List<SessionScript>)
    ensures { have_text_rules scripts.now ≡ true }
{
    for script in scripts {
        have_text_rules(&script.statements);
    }
}
