ghost use Rattle.std.specs.Prelude.{◌≡◌};
ghost use Rattle.sample_program.specs.SettingsTexts.{settings_text};

/// The settings under which samples are tried, in JSON: the connector `c0` takes cards on credit, in USD and EUR, from an
/// amount of 100 on.
#[tactic(auto, unfolding(crate::specs::SettingsTexts::settings_text))]
pub fn sample_settings() -> &'static str
    ensures { result.now ≡ settings_text }
{
    "[{\"connector_name\":\"c0\",\"payment_methods_enabled\":[{\"payment_method\":\"card\",\"payment_method_types\":[{\"payment_method_type\":\"credit\",\"accepted_currencies\":{\"type\":\"enable_only\",\"list\":[\"USD\",\"EUR\"]},\"minimum_amount\":100}]}]}]"
}
