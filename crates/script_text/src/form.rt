// What an object is about, and which members it may have.
ghost use Rattle.std.specs.Prelude.{◌≡◌};
ghost use Rattle.serde_json.specs.View.{view, members_view};
ghost use Rattle.script_text.specs.Form.{message_verb_of, queue_verb_of, route_verb_of, admin_verb_of, verb_of, is_key_of_create_table, is_key_of_create_queue, is_key_of_switch, is_key_of_add_subscriber, is_key_of_schedule, is_key_of_route, is_key_of_message, is_key_of_placing, is_key_of_enqueue, is_key_of_choice, is_key_of_taking, is_key_of_dequeue, is_key_of_verb, is_key_of_plain_dequeue, is_key_of, only_keys, has_form};

use serde_json::{Map, Value};

/// What an object is about: a line, or a value within one.
#[derive(Clone, Copy, Debug, PartialEq, Eq)]
pub enum Form {
    /// A line declares a session.
    Declaration,
    /// A line has a session ask a statement.
    Asking(Verb),
    /// A line has a session dequeue, with none of the members that are mostly left out.
    PlainDequeue,
    /// A recipient is listed with its address.
    Recipient,
    /// An agent is listed.
    Agent,
}

/// What a statement does.
#[derive(Clone, Copy, Debug, PartialEq, Eq)]
pub enum Verb {
    /// It makes a queue table.
    CreateTable,
    /// It takes a queue table away.
    DropTable,
    /// It makes a queue.
    CreateQueue,
    /// It takes a queue away.
    DropQueue,
    /// It turns a queue on.
    StartQueue,
    /// It turns a queue off.
    StopQueue,
    /// It makes a subscriber.
    AddSubscriber,
    /// It takes a subscriber away.
    RemoveSubscriber,
    /// It makes a schedule.
    Schedule,
    /// It takes a schedule away.
    Unschedule,
    /// It turns a schedule on.
    EnableSchedule,
    /// It turns a schedule off.
    DisableSchedule,
    /// It puts a message into a queue.
    Enqueue,
    /// It takes or shows a message of a queue.
    Dequeue,
    /// It waits until one of several agents has a message to take.
    Listen,
    /// It makes what the session has done last.
    Commit,
    /// It takes back what the session has done.
    Rollback,
}

fn message_verb_of(word: &str) -> Option<Verb>
    ensures { result ≡ message_verb_of word.now }
{
    if word == "enqueue" {
        Some(Verb::Enqueue)
    } else if word == "dequeue" {
        Some(Verb::Dequeue)
    } else if word == "listen" {
        Some(Verb::Listen)
    } else if word == "commit" {
        Some(Verb::Commit)
    } else if word == "rollback" {
        Some(Verb::Rollback)
    } else {
        None
    }
}

fn queue_verb_of(word: &str) -> Option<Verb>
    ensures { result ≡ queue_verb_of word.now }
{
    if word == "create-table" {
        Some(Verb::CreateTable)
    } else if word == "drop-table" {
        Some(Verb::DropTable)
    } else if word == "create-queue" {
        Some(Verb::CreateQueue)
    } else if word == "drop-queue" {
        Some(Verb::DropQueue)
    } else if word == "start-queue" {
        Some(Verb::StartQueue)
    } else if word == "stop-queue" {
        Some(Verb::StopQueue)
    } else {
        None
    }
}

fn route_verb_of(word: &str) -> Option<Verb>
    ensures { result ≡ route_verb_of word.now }
{
    if word == "add-subscriber" {
        Some(Verb::AddSubscriber)
    } else if word == "remove-subscriber" {
        Some(Verb::RemoveSubscriber)
    } else if word == "schedule" {
        Some(Verb::Schedule)
    } else if word == "unschedule" {
        Some(Verb::Unschedule)
    } else if word == "enable-schedule" {
        Some(Verb::EnableSchedule)
    } else if word == "disable-schedule" {
        Some(Verb::DisableSchedule)
    } else {
        None
    }
}

fn admin_verb_of(word: &str) -> Option<Verb>
    ensures { result ≡ admin_verb_of word.now }
{
    match queue_verb_of(word) {
        Some(verb) => Some(verb),
        None => route_verb_of(word),
    }
}

/// What the statements of that word do.
pub fn verb_of(word: &str) -> Option<Verb>
    ensures { result ≡ verb_of word.now }
{
    match message_verb_of(word) {
        Some(verb) => Some(verb),
        None => admin_verb_of(word),
    }
}

fn is_key_of_create_table(key: &str) -> bool
    ensures { result ≡ is_key_of_create_table key.now }
{
    key == "table" || key == "fields" || key == "sort" || key == "multi" || key == "grouping"
}

fn is_key_of_create_queue(key: &str) -> bool
    ensures { result ≡ is_key_of_create_queue key.now }
{
    key == "queue"
        || key == "table"
        || key == "kind"
        || key == "max_retries"
        || key == "retry_delay"
        || key == "retention"
}

fn is_key_of_switch(key: &str) -> bool
    ensures { result ≡ is_key_of_switch key.now }
{
    key == "queue" || key == "enqueue" || key == "dequeue"
}

fn is_key_of_add_subscriber(key: &str) -> bool
    ensures { result ≡ is_key_of_add_subscriber key.now }
{
    key == "queue" || key == "name" || key == "address" || key == "rule"
}

fn is_key_of_schedule(key: &str) -> bool
    ensures { result ≡ is_key_of_schedule key.now }
{
    key == "queue"
        || key == "to"
        || key == "start"
        || key == "duration"
        || key == "period"
        || key == "latency"
}

fn is_key_of_route(key: &str) -> bool
    ensures { result ≡ is_key_of_route key.now }
{
    key == "queue" || key == "to"
}

fn is_key_of_message(key: &str) -> bool
    ensures { result ≡ is_key_of_message key.now }
{
    key == "payload"
        || key == "priority"
        || key == "corr"
        || key == "recipients"
        || key == "exception_queue"
        || key == "props"
}

fn is_key_of_placing(key: &str) -> bool
    ensures { result ≡ is_key_of_placing key.now }
{
    key == "queue"
        || key == "visibility"
        || key == "delay"
        || key == "expiration"
        || key == "before"
        || key == "top"
}

fn is_key_of_enqueue(key: &str) -> bool
    ensures { result ≡ is_key_of_enqueue key.now }
{
    is_key_of_message(key) || is_key_of_placing(key)
}

fn is_key_of_choice(key: &str) -> bool
    ensures { result ≡ is_key_of_choice key.now }
{
    key == "consumer"
        || key == "navigation"
        || key == "msgid"
        || key == "corr"
        || key == "condition"
}

fn is_key_of_taking(key: &str) -> bool
    ensures { result ≡ is_key_of_taking key.now }
{
    key == "queue" || key == "mode" || key == "visibility" || key == "wait"
}

fn is_key_of_dequeue(key: &str) -> bool
    ensures { result ≡ is_key_of_dequeue key.now }
{
    is_key_of_choice(key) || is_key_of_taking(key)
}

fn is_key_of_verb(verb: Verb, key: &str) -> bool
    ensures { result ≡ is_key_of_verb verb key.now }
{
    match verb {
        Verb::CreateTable => is_key_of_create_table(key),
        Verb::DropTable => key == "table",
        Verb::CreateQueue => is_key_of_create_queue(key),
        Verb::DropQueue => key == "queue",
        Verb::StartQueue | Verb::StopQueue => is_key_of_switch(key),
        Verb::AddSubscriber => is_key_of_add_subscriber(key),
        Verb::RemoveSubscriber => key == "queue" || key == "name",
        Verb::Schedule => is_key_of_schedule(key),
        Verb::Unschedule | Verb::EnableSchedule | Verb::DisableSchedule => is_key_of_route(key),
        Verb::Enqueue => is_key_of_enqueue(key),
        Verb::Dequeue => is_key_of_dequeue(key),
        Verb::Listen => key == "agents" || key == "wait",
        Verb::Commit | Verb::Rollback => false,
    }
}

fn is_key_of_plain_dequeue(key: &str) -> bool
    ensures { result ≡ is_key_of_plain_dequeue key.now }
{
    key == "s" || key == "do" || key == "queue" || key == "visibility"
}

fn is_key_of(form: Form, key: &str) -> bool
    ensures { result ≡ is_key_of form key.now }
{
    match form {
        Form::Declaration => key == "session" || key == "at",
        Form::Asking(verb) => key == "s" || key == "do" || is_key_of_verb(verb, key),
        Form::PlainDequeue => is_key_of_plain_dequeue(key),
        Form::Recipient => key == "name" || key == "address",
        Form::Agent => key == "queue" || key == "consumer",
    }
}

fn only_keys(form: Form, members: &Map<String, Value>) -> bool
    ensures { result ≡ only_keys form (members_view members.now.entries) }
{
    for (key, _value) in members {
        if !is_key_of(form, key.as_str()) {
            return false;
        }
    }
    true
}

/// Whether a value is an object with no members but those of the form.
pub fn has_form(form: Form, value: &Value) -> bool
    ensures { result ≡ has_form form (view value.now) }
{
    match value.as_object() {
        Some(members) => only_keys(form, members),
        None => false,
    }
}
