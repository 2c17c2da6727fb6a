//! Which statements are executed so far.

ghost use Rattle.std.specs.Prelude.{◌≡◌};
ghost use Rattle.rs_mean.specs.Executed as spec;

use rs_ast::Stmt;

/// Returns whether the statement is executed: all are but those on programs and on plans, MIGRATE, and SHOW.
pub fn is_executed(stmt: &Stmt) -> bool
    ensures { result ≡ spec.is_executed stmt.now }
{
    match stmt {
        Stmt::CreateTable { .. }
        | Stmt::DropTable { .. }
        | Stmt::CreateIndex { .. }
        | Stmt::DropIndex { .. }
        | Stmt::CreateSynonym { .. }
        | Stmt::DropSynonym { .. }
        | Stmt::Dml(_) => true,
        _ => false,
    }
}
