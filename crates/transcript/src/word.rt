// The word by which a script asks for a statement.
ghost use Rattle.std.specs.Prelude.{◌≡◌};
ghost use Rattle.transcript.specs.Word.{spaced, admin_word, statement_word};

use queue_rows::{Admin, Statement};

fn spaced_admin_word(ask: &Admin) -> &'static str
    ensures { result.now ≡ spaced (admin_word ask.now) }
{
    match ask {
        Admin::CreateTable { .. } => " create-table ",
        Admin::DropTable { .. } => " drop-table ",
        Admin::CreateQueue { .. } => " create-queue ",
        Admin::DropQueue { .. } => " drop-queue ",
        Admin::StartQueue { .. } => " start-queue ",
        Admin::StopQueue { .. } => " stop-queue ",
        Admin::AddSubscriber { .. } => " add-subscriber ",
        Admin::RemoveSubscriber { .. } => " remove-subscriber ",
        Admin::Schedule { .. } => " schedule ",
        Admin::Unschedule { .. } => " unschedule ",
        Admin::EnableSchedule { .. } => " enable-schedule ",
        Admin::DisableSchedule { .. } => " disable-schedule ",
    }
}

/// The word of a statement between two spaces.
pub(crate) fn spaced_statement_word(statement: &Statement) -> &'static str
    ensures { result.now ≡ spaced (statement_word statement.now) }
{
    match statement {
        Statement::Admin(ask) => spaced_admin_word(ask),
        Statement::Enqueue(_) => " enqueue ",
        Statement::Dequeue(_) => " dequeue ",
        Statement::Listen(_) => " listen ",
        Statement::Commit => " commit ",
        Statement::Rollback => " rollback ",
    }
}
