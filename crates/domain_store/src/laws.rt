ghost use Rattle.domain_store.specs.StoreLaws.{ContextLaw, PaymentLaw, AssumedInLaw};

use key_table::{forces_law, left_law};

/// One more assumption is the last of the context.
pub fn context_law()
    ensures { ContextLaw }
{}

/// In the payment of a store each of the problem's atoms has the truth that is forced on it, so each assumption has its
/// truth.
pub fn payment_law()
    ensures forced { PaymentLaw }
    ensures assumed { AssumedInLaw }
{
    left_law();
    forces_law();
}
